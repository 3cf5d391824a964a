ghost use Rattle.std.specs.Prelude.{◌≡◌, ◌||◌, if◌then◌else◌, ℕ, List, [], ◌∷◌, ◌++◌, OnOk};
ghost use Rattle.std.specs.List.{list_any};
ghost use Rattle.std.specs.Str.{bytes_eq};
ghost use Rattle.command.specs.Kinds.{parents_of};
ghost use Rattle.graph_over.specs.working.Ids.{AreAdded, IsAdded};

use base_bytes::{Id, NoMemory};
use command::{Command, Places};
use indexmap::IndexSet;
use std::alloc::Global;

/// Puts the parents of the command among the ids.
pub fn add_parents(ids: &mut IndexSet<Id>, command: &Command) -> Result<(), NoMemory>
    ensures { OnOk result (AreAdded ids.old.keys (parents_of command.now) ids.new.keys) }
{
    let parents = command.parents();
    add_all(ids, parents.as_slice())
}

#[tactic(auto, using(crate::proofs::AddedIds::first_added))]
fn add_all(ids: &mut IndexSet<Id>, all: &[Id]) -> Result<(), NoMemory>
    ensures { OnOk result (AreAdded ids.old.keys all.now ids.new.keys) }
{
    let Some((first, rest)) = all.split_first() else {
        return Ok(());
    };
    add(ids, first)?;
    add_all(ids, rest)?;
    Ok(())
}

fn add(ids: &mut IndexSet<Id>, one: &Id) -> Result<(), NoMemory>
    ensures { OnOk result (IsAdded ids.old.keys one.now ids.new.keys) }
{
    ids.insert(*one)?;
    Ok(())
}

/// Adds the place of a command with this id, where it is no parent.
pub fn add_head(
    alloc: Global,
    heads: &mut Places,
    parents: &IndexSet<Id>,
    id: &Id,
    place: usize,
) -> Result<(), NoMemory>
    ensures { OnOk result (heads.new ≡ heads.old ++ (if list_any (bytes_eq id.now) parents.now.keys then [] else place ∷ [])) }
{
    if !parents.contains(id) {
        heads.push(alloc, place)?;
    }
    Ok(())
}
