ghost use Rattle.std.specs.Prelude.{◌≡◌, ◌<◌, ℕ, List, length, IfOk};
ghost use Rattle.std.specs.List.{All, list_any};
ghost use Rattle.std.specs.Str.{bytes_eq};
ghost use Rattle.command.specs.Ancestors.{is_parent};
ghost use Rattle.graph_over.specs.working.Heads.{places_left};

use crate::parents::{add_head, add_parents};
use base_bytes::{Id, NoMemory};
use command::{Command, Graph, Places};
use indexmap::IndexSet;
use std::alloc::Global;

/// The ids of the parents of these commands.
pub fn parents_of_all(alloc: Global, commands: &[Command]) -> Result<IndexSet<Id>, NoMemory>
    ensures { IfOk result (λ ids. (id : List ℕ) → list_any (bytes_eq id) ids.keys ≡ is_parent commands.now id) }
{
    let mut parents = IndexSet::new(alloc);
    for command in commands {
        add_parents(&mut parents, command)?;
    }
    Ok(parents)
}

/// Those of the places whose command isn't among the parents.
pub fn without_parents<G: Graph>(
    alloc: Global,
    graph: &G,
    parents: &IndexSet<Id>,
    places: &[usize],
) -> Result<Places, NoMemory>
    requires { All (λ place. place < length (G.commands graph.now)) places.now }
    ensures { IfOk result (λ left. left ≡ places_left (λ id. list_any (bytes_eq id) parents.now.keys) (G.commands graph.now) places.now) }
{
    let mut left = Places::new(alloc);
    for place in places {
        add_head(alloc, &mut left, parents, &graph.id_at(*place), *place)?;
    }
    Ok(left)
}
