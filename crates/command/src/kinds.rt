ghost use Rattle.std.specs.Prelude.{◌≡◌};

use crate::command::Command;
use crate::parents::Parents;

impl Command {
    ghost use Rattle.command.specs.Kinds.{carried, is_finalize, is_merge, parents_of, priority_of};

    /// The ids of its parents, the left one first. Takes no memory.
    pub fn parents(&self) -> Parents
        ensures { result ≡ parents_of self.now }
    {
        match self {
            Command::Init { .. } => Parents::none(),
            Command::Basic { parent, .. } => Parents::one(parent),
            Command::Finalize { parent, .. } => Parents::one(parent),
            Command::Merge { left, right, .. } => Parents::two(left, right),
        }
    }

    /// The cut that it carries; None in version 1.
    pub fn cut(&self) -> Option<u32>
        ensures { result ≡ carried self.now }
    {
        match self {
            Command::Init { cut, .. } => *cut,
            Command::Basic { cut, .. } => *cut,
            Command::Finalize { cut, .. } => *cut,
            Command::Merge { cut, .. } => *cut,
        }
    }

    /// Whether it joins two heads.
    pub fn is_merge(&self) -> bool
        ensures { result ≡ is_merge self.now }
    {
        matches!(self, Command::Merge { .. })
    }

    /// Whether it makes all before it final.
    pub fn is_finalize(&self) -> bool
        ensures { result ≡ is_finalize self.now }
    {
        matches!(self, Command::Finalize { .. })
    }

    /// The priority of a basic command; every other has 0.
    pub fn priority(&self) -> u32
        ensures { result ≡ priority_of self.now }
    {
        match self {
            Command::Basic { priority, .. } => *priority,
            _ => 0,
        }
    }
}
