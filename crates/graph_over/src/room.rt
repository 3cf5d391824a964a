ghost use Rattle.std.specs.Prelude.{◌≡◌, ◌+◌, ◌<◌, ◌≤◌, [], ◌∷◌, ◌++◌, false, length, vec_capacity, IfOk};
ghost use Rattle.std.specs.List.{list_any};
ghost use Rattle.std.specs.Str.{bytes_eq};
ghost use Rattle.indexmap.specs.IndexSet.{spare};

use base_bytes::{Id, NoMemory};
use command::{Command, Commands};
use indexmap::IndexSet;
use std::alloc::Global;

/// Notes an id that isn't there, for which there is room.
pub fn note(ids: &mut IndexSet<Id>, id: Id)
    requires room { 0 < spare ids.old }
    requires fresh { list_any (bytes_eq id) ids.old.keys ≡ false }
    ensures keys { ids.new.keys ≡ ids.old.keys ++ id ∷ [] }
    ensures spare { spare ids.old ≤ spare ids.new + 1 }
{
    match ids.insert(id) {
        Ok(_) => {}
        Err(_) => unreachable!(),
    }
}

/// Puts a command behind the others, for which there is room.
pub fn store(commands: &mut Vec<Command>, command: Command)
    requires room { length commands.old.items < vec_capacity commands.old }
    ensures items { commands.new.items ≡ commands.old.items ++ command ∷ [] }
    ensures capacity { vec_capacity commands.old ≤ vec_capacity commands.new }
{
    match commands.push(command) {
        Ok(()) => {}
        Err(_) => unreachable!(),
    }
}

/// The commands of the vector, each moved into the list.
pub fn gathered(alloc: Global, commands: Vec<Command>) -> Result<Commands, NoMemory>
    ensures { IfOk result (λ all. all ≡ commands.items) }
{
    let mut all = Commands::new(alloc);
    for command in commands {
        all.push(alloc, command)?;
    }
    Ok(all)
}
