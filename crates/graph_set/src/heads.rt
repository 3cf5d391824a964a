// The heads of a graph, kept as commands are added.
ghost use Rattle.std.specs.Prelude.{◌≡◌, ◌≤◌, ◌<◌, ◌++◌, ◌∷◌, [], filter, length, map, vec_capacity, IfOk};
ghost use Rattle.command.specs.Wire.{command_id};
ghost use Rattle.graph_set.specs.working.Heads.{is_other};
ghost use Rattle.indexmap.specs.IndexMap.{keys, values};

use base_bytes::{Id, NoMemory};
use command::Command;
use indexmap::IndexMap;
use std::alloc::Global;

/// Whether the command at a place has none of these ids.
fn is_other(commands: &IndexMap<Id, Command>, place: usize, ids: &[Id]) -> bool
    requires named { keys commands.now ≡ map command_id (values commands.now) }
    ensures { result ≡ is_other (values commands.now) ids.now place }
{
    match commands.get_index(place) {
        Some((id, _)) => !ids.contains(id),
        None => true,
    }
}

/// Keeps the places of the commands that have none of these ids.
pub fn keep_others(heads: &mut Vec<usize>, commands: &IndexMap<Id, Command>, ids: &[Id])
    requires named { keys commands.now ≡ map command_id (values commands.now) }
    ensures items { heads.new.items ≡ filter (is_other (values commands.now) ids.now) heads.old.items }
    ensures capacity { vec_capacity heads.old ≤ vec_capacity heads.new }
{
    heads.retain(|place| is_other(commands, *place, ids));
}

/// A copy of the places.
pub fn copied(alloc: Global, places: &[usize]) -> Result<Vec<usize>, NoMemory>
    ensures { IfOk result (λ copy. copy.items ≡ places.now) }
{
    let mut copy = Vec::with_capacity(alloc, places.len())?;
    copy.extend_from_slice(places)?;
    Ok(copy)
}

/// Puts a place behind the others, for which there is room.
pub fn put_place(heads: &mut Vec<usize>, place: usize)
    requires room { length heads.old.items < vec_capacity heads.old }
    ensures items { heads.new.items ≡ heads.old.items ++ place ∷ [] }
    ensures capacity { vec_capacity heads.old ≤ vec_capacity heads.new }
{
    match heads.push(place) {
        Ok(()) => {}
        Err(_) => unreachable!(),
    }
}
