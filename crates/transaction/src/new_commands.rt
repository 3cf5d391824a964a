ghost use Rattle.std.specs.Prelude.{◌≡◌, false, [], ◌∷◌, ◌++◌, length, OnOk};
ghost use Rattle.std.specs.List.{All};
ghost use Rattle.command.specs.Closed.{has_id};
ghost use Rattle.command.specs.Wire.{IsFormed, command_id};

use base_bytes::{Id, NoMemory};
use command::{Command, Commands};
use indexmap::IndexSet;
use std::alloc::Global;
use std::marker::Model;

/// The commands that an action makes, which contracts see as their list. Their ids stand in a set, so that each look-up is one.
#[derive(Drop)]
pub struct NewCommands {
    commands: Commands,
    ids: IndexSet<Id>,
}

impl Model for NewCommands {
    ghost use Rattle.std.specs.Prelude.{◌≡◌, List, map};
    ghost use Rattle.std.specs.List.{All};
    ghost use Rattle.command.specs.Wire.{IsFormed, command_id};
    ghost use Rattle.command.specs.declared.command.Command.{Command};

    ghost Value = { List Command };

    ghost view = { λ it. it.commands };

    ghost invariant = { λ it. (it.ids.keys ≡ map command_id it.commands) × All IsFormed it.commands };
}

impl NewCommands {
    /// No commands. Takes no memory.
    pub fn new(alloc: Global) -> NewCommands
        ensures { result ≡ [] }
    {
        NewCommands {
            commands: Commands::new(alloc),
            ids: IndexSet::new(alloc),
        }
    }

    pub fn len(&self) -> usize
        ensures length { result ≡ length self.now }
        ensures formed { All IsFormed self.now }
    {
        self.commands.len()
    }

    /// Whether one of them has this id.
    #[tactic(auto, using(crate::proofs::DraftFacts::among_ids))]
    pub fn has(&self, id: &Id) -> bool
        ensures { result ≡ has_id self.now id.now }
    {
        self.ids.contains(id)
    }

    /// Adds a command of this id, which none of the others has.
    pub fn push(&mut self, alloc: Global, command: Command, id: Id) -> Result<(), NoMemory>
        requires id { id ≡ command_id command }
        requires formed { IsFormed command }
        requires fresh { has_id self.old id ≡ false }
        ensures { OnOk result (self.new ≡ self.old ++ command ∷ []) }
    {
        self.ids.reserve(1)?;
        self.commands.push(alloc, command)?;
        match self.ids.insert(id) {
            Ok(_) => Ok(()),
            Err(_) => unreachable!(),
        }
    }

    /// Their list, as it is.
    pub fn into_commands(self) -> Commands
        ensures commands { result ≡ self }
        ensures formed { All IsFormed self }
    {
        self.commands
    }
}
