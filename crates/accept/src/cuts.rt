//! The cut that a command states, held against the one that its parents give it.

ghost use Rattle.std.specs.Prelude.{◌≡◌, ◌≤◌, IfOk, map};
ghost use Rattle.accept.specs.Admission.{wrong_cut};
ghost use Rattle.command.specs.Closed.{max_commands};
ghost use Rattle.command.specs.Cuts.{cut_of_id, one_above};

use crate::answer::Reason;
use base_bytes::{Id, NoMemory};
use command::{Command, Graph, cut_of};
use std::alloc::Global;

/// The cut of the command of this id, and 0 where none is held that has it.
fn cut_of_id<G: Graph>(alloc: Global, graph: &G, id: &Id) -> Result<u32, NoMemory>
    ensures cut { IfOk result (λ cut. cut ≡ cut_of_id (G.commands graph.now) id.now) }
    ensures small { IfOk result (λ cut. cut ≤ max_commands) }
{
    match graph.place_of(id) {
        Some(place) => {
            let cut = cut_of(alloc, graph, place)?;
            Ok(cut)
        }
        None => Ok(0),
    }
}

/// The cut of a command with these parents.
fn cut_behind<G: Graph>(alloc: Global, graph: &G, parents: &[Id]) -> Result<u32, NoMemory>
    ensures { IfOk result (λ cut. cut ≡ one_above (map (cut_of_id (G.commands graph.now)) parents.now)) }
{
    match parents {
        [] => Ok(0),
        [first, rest @ ..] => {
            let own = cut_of_id(alloc, graph, first)?;
            let others = cut_behind(alloc, graph, rest)?;
            Ok((own + 1).max(others))
        }
    }
}

/// A wrong cut that the command states. The real one is looked for only where one is stated.
pub fn wrong_cut<G: Graph>(
    alloc: Global,
    graph: &G,
    command: &Command,
) -> Result<Option<Reason>, NoMemory>
    ensures { IfOk result (λ found. found ≡ wrong_cut (G.commands graph.now) command.now) }
{
    let Some(stated) = command.cut() else {
        return Ok(None);
    };
    let parents = command.parents();
    let real = cut_behind(alloc, graph, parents.as_slice())?;
    if stated == real {
        return Ok(None);
    }
    Ok(Some(Reason::WrongCut { stated, real }))
}
