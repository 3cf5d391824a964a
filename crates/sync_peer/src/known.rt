ghost use Rattle.std.specs.Prelude.{◌≡◌, ◌<◌, ◌++◌, ◌∷◌, length, OnOk, IfOk};
ghost use Rattle.command.specs.Ancestors.{IsAt};
ghost use Rattle.command.specs.Wire.{command_id};
ghost use Rattle.command.specs.declared.command.Command.{Command as TheCommand};
ghost use Rattle.sync_peer.specs.working.Walks.{HaveSame, walked, with_parents};

use base_bytes::{Id, NoMemory};
use command::{Command, Graph};
use indexmap::IndexSet;
use std::alloc::Global;

fn add(ids: &mut IndexSet<Id>, one: &Id) -> Result<(), NoMemory>
    ensures { OnOk result (HaveSame ids.new.keys (one.now ∷ ids.old.keys)) }
{
    ids.insert(*one)?;
    Ok(())
}

fn add_all(ids: &mut IndexSet<Id>, all: &[Id]) -> Result<(), NoMemory>
    ensures { OnOk result (HaveSame ids.new.keys (all.now ++ ids.old.keys)) }
{
    for one in all {
        add(ids, one)?;
    }
    Ok(())
}

/// Adds the parents of a command with this id, where it is known.
fn add_parents(known: &mut IndexSet<Id>, id: &Id, command: &Command) -> Result<(), NoMemory>
    requires { id.now ≡ command_id command.now }
    ensures { OnOk result (HaveSame known.new.keys (with_parents command.now known.old.keys)) }
{
    if known.contains(id) {
        let parents = command.parents();
        add_all(known, parents.as_slice())?;
    }
    Ok(())
}

/// The same for the command at a place.
fn add_parents_at<G: Graph>(
    known: &mut IndexSet<Id>,
    graph: &G,
    place: usize,
) -> Result<(), NoMemory>
    requires { place < length (G.commands graph.now) }
    ensures { OnOk result ((c : TheCommand) → IsAt (G.commands graph.now) place c → HaveSame known.new.keys (with_parents c known.old.keys)) }
{
    add_parents(known, &graph.id_at(place), graph.at(place))
}

/// The ids of the sample, of all ancestors of its commands, and of no other command of the graph. Each command is looked at once, and each link.
pub fn known_ids<G: Graph>(
    alloc: Global,
    graph: &G,
    sample: &[Id],
) -> Result<IndexSet<Id>, NoMemory>
    ensures { IfOk result (λ known. HaveSame known.keys (walked (G.commands graph.now) sample.now)) }
{
    let mut known = IndexSet::new(alloc);
    add_all(&mut known, sample)?;
    let mut place = graph.len();
    while place > 0 {
        place -= 1;
        add_parents_at(&mut known, graph, place)?;
    }
    Ok(known)
}
