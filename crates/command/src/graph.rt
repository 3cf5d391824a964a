ghost use Rattle.std.specs.Prelude.{◌≡◌, ◌+◌, ◌<◌, ◌≤◌, ◌↔◌, ℕ, List, [], ◌∷◌, ◌++◌, length, slice_get, Some, option_map, IsTrue, IfOk, OnOk};
ghost use Rattle.std.specs.List.{Contains};
ghost use Rattle.command.specs.Ancestors.{Ancestor, IsAt, heads};
ghost use Rattle.command.specs.Closed.{IsClosed, IsHeld, max_commands, place_of};
ghost use Rattle.command.specs.Cuts.{cut_behind};
ghost use Rattle.command.specs.Kinds.{carried, parents_of};
ghost use Rattle.command.specs.Wire.{IsInForm, command_id};
ghost use Rattle.command.specs.declared.command.Command.{Command as TheCommand};

use crate::command::Command;
use crate::places::Places;
use base_bytes::{Id, NoMemory};
use std::alloc::Global;

/// How many commands a graph holds at most.
pub const MAX_COMMANDS: usize = 65_536;

/// A graph of commands, seen as their list in stored order. The list is closed, and has at most `MAX_COMMANDS`. Places are
/// counted in it, from 0.
pub trait Graph: Sized + Drop {
    /// The commands in stored order.
    ghost commands: { Self → List TheCommand };

    /// How many more commands can be appended without memory.
    ghost room: { Self → ℕ };

    /// A graph of no commands.
    fn empty(alloc: Global) -> Result<Self, NoMemory>
        ensures { IfOk result (λ graph. commands graph ≡ []) };

    /// How many commands are held.
    fn len(&self) -> usize
        ensures { result ≡ length (commands self.now) };

    /// The command at a place.
    fn at(&self, place: usize) -> &Command
        requires { place < length (commands self.now) }
        ensures { IsAt (commands self.now) place result.now };

    /// The id of the command at a place.
    fn id_at(&self, place: usize) -> Id
        requires { place < length (commands self.now) }
        ensures { option_map command_id (slice_get (commands self.now) place) ≡ Some result };

    /// The place of the command with this id, and None exactly where none is held that has it.
    fn place_of(&self, id: &Id) -> Option<usize>
        ensures { result ≡ place_of (commands self.now) id.now };

    /// Whether the command at the first place is an ancestor of the one at the second. No command is its own ancestor.
    fn is_ancestor(&self, alloc: Global, older: usize, newer: usize) -> Result<bool, NoMemory>
        requires older { older < length (commands self.now) }
        requires newer { newer < length (commands self.now) }
        ensures { IfOk result (λ found. (x y : TheCommand) → IsAt (commands self.now) older x → IsAt (commands self.now) newer y → IsTrue found ↔ Ancestor (commands self.now) x y) };

    /// The places of the commands that are no other's parent, ascending.
    fn heads(&self, alloc: Global) -> Result<Places, NoMemory>
        ensures { IfOk result (λ places. places ≡ heads (commands self.now)) };

    /// How many more commands can be appended without memory.
    fn spare(&self) -> usize
        ensures { result ≡ room self.now };

    /// Makes room for so many more commands; without memory the commands stay as they were, and no room is lost.
    fn reserve(&mut self, alloc: Global, more: usize) -> Result<(), NoMemory>
        ensures ok { OnOk result (more ≤ room self.new) }
        ensures commands { commands self.new ≡ commands self.old }
        ensures kept { room self.old ≤ room self.new };

    /// Appends a command, whose parents are held, whose id isn't, and whose cut is the one that it carries, if it carries one. Answers
    /// its place.
    fn append(&mut self, command: Command) -> usize
        requires room { 0 < room self.old }
        requires few { length (commands self.old) < max_commands }
        requires formed { IsInForm command }
        requires fresh { IsHeld (commands self.old) (command_id command) → ⊥ }
        requires held { (parent : List ℕ) → Contains (parents_of command) parent → IsHeld (commands self.old) parent }
        requires cut { (stated : ℕ) → carried command ≡ Some stated → stated ≡ cut_behind (commands self.old) command }
        ensures place { result ≡ length (commands self.old) }
        ensures commands { commands self.new ≡ commands self.old ++ command ∷ [] }
        ensures room { room self.new + 1 ≡ room self.old };

    /// A graph of the same commands.
    fn copy(&self, alloc: Global) -> Result<Self, NoMemory>
        ensures { IfOk result (λ graph. commands graph ≡ commands self.now) };

    ghost closed: { (graph : Self) → IsClosed (commands graph) };

    ghost few: { (graph : Self) → length (commands graph) ≤ max_commands };
}
