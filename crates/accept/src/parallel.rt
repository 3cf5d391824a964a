//! The first held finalize that doesn't stand before a command.

ghost use Rattle.std.specs.Prelude.{◌≡◌, ◌<◌, ◌↔◌, [], ◌∷◌, length, IfOk, IsTrue};
ghost use Rattle.accept.specs.Admission.{IsFirstBeside, IsFirstFinalizeWithout};
ghost use Rattle.accept.specs.working.Looks.{Looks};
ghost use Rattle.command.specs.Ancestors.{AreInLine, IsAt, IsUpTo};
ghost use Rattle.command.specs.Closed.{IsHeld};
ghost use Rattle.command.specs.Kinds.{parents_of};
ghost use Rattle.command.specs.Wire.{command_id};
ghost use Rattle.command.specs.declared.command.Command.{Command as TheCommand};

use base_bytes::{Id, NoMemory};
use command::{Command, Graph};
use std::alloc::Global;

/// What stands at a place.
pub enum Look {
    /// No finalize.
    Other,
    /// A finalize that is the tip, or an ancestor of it.
    UpTo,
    /// A finalize of this id that is neither.
    Beside(Id),
}

/// Whether the command at the place is the one at the tip, or an ancestor of it.
fn is_up_to<G: Graph>(alloc: Global, graph: &G, tip: usize, place: usize) -> Result<bool, NoMemory>
    requires tip { tip < length (G.commands graph.now) }
    requires place { place < length (G.commands graph.now) }
    ensures { IfOk result (λ is. (x p : TheCommand) → IsAt (G.commands graph.now) place x → IsAt (G.commands graph.now) tip p → IsTrue is ↔ IsUpTo (G.commands graph.now) p x) }
{
    if place == tip {
        return Ok(true);
    }
    let found = graph.is_ancestor(alloc, place, tip)?;
    Ok(found)
}

fn look_at<G: Graph>(alloc: Global, graph: &G, tip: usize, place: usize) -> Result<Look, NoMemory>
    requires tip { tip < length (G.commands graph.now) }
    requires place { place < length (G.commands graph.now) }
    ensures { IfOk result (λ look. (x p : TheCommand) → IsAt (G.commands graph.now) place x → IsAt (G.commands graph.now) tip p → Looks (G.commands graph.now) p x look) }
{
    if !graph.at(place).is_finalize() {
        return Ok(Look::Other);
    }
    if is_up_to(alloc, graph, tip, place)? {
        Ok(Look::UpTo)
    } else {
        Ok(Look::Beside(graph.id_at(place)))
    }
}

/// The first finalize that is neither the tip nor an ancestor of it. It goes from the newest to the oldest, and ends at one that is: since of two
/// finalize commands one is the other's ancestor, all older ones are ancestors of the tip too.
fn first_beside<G: Graph>(alloc: Global, graph: &G, tip: usize) -> Result<Option<Id>, NoMemory>
    requires tip { tip < length (G.commands graph.now) }
    requires in_line { AreInLine (G.commands graph.now) }
    ensures { IfOk result (λ first. (p : TheCommand) → IsAt (G.commands graph.now) tip p → IsFirstFinalizeWithout (IsUpTo (G.commands graph.now) p) (G.commands graph.now) first) }
{
    let mut first = None;
    let mut place = graph.len();
    while place > 0 {
        place -= 1;
        match look_at(alloc, graph, tip, place)? {
            Look::Other => {}
            Look::UpTo => return Ok(first),
            Look::Beside(id) => first = Some(id),
        }
    }
    Ok(first)
}

/// The first held finalize that is no ancestor of a command with this one parent, which is held.
pub fn first_beside_child<G: Graph>(
    alloc: Global,
    graph: &G,
    parent: &Id,
) -> Result<Option<Id>, NoMemory>
    requires held { IsHeld (G.commands graph.now) parent.now }
    requires in_line { AreInLine (G.commands graph.now) }
    ensures { IfOk result (λ first. (c : TheCommand) → parents_of c ≡ parent.now ∷ [] → IsFirstBeside (G.commands graph.now) c first) }
{
    match graph.place_of(parent) {
        Some(place) => {
            let first = first_beside(alloc, graph, place)?;
            Ok(first)
        }
        None => unreachable!(),
    }
}
