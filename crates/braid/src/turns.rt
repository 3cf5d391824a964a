ghost use Rattle.std.specs.Prelude.{◌≡◌, ◌<◌, ◌+◌, ◌∷◌, length, IfSome, IfNone, Some, slice_get};
ghost use Rattle.std.specs.BinaryHeap.{heap_items};
ghost use Rattle.std.specs.List.{All};
ghost use Rattle.std.specs.List.Sorted.{IsPermutation};
ghost use Rattle.braid.specs.working.Turns.{AreOrdered, IsSooner, IsTurn};

use base_bytes::Id;
use command::Graph;
use std::cmp::Reverse;
use std::collections::BinaryHeap;

/// When a command is to be taken: the greatest first. A merge is greater than every other command, and of two others the lower one
/// is greater.
#[derive(Clone, Copy, PartialEq, Eq, PartialOrd, Ord)]
pub struct Turn {
    pub is_merge: bool,
    pub is_finalize: Reverse<bool>,
    pub priority: Reverse<u32>,
    pub id: Id,
    pub place: usize,
    pub number: usize,
}

/// The turn of the command at a place, which has this number in its closure.
pub fn turn_of<G: Graph>(graph: &G, places: &[usize], number: usize) -> Turn
    requires number { number < length places.now }
    requires within { All (λ p. p < length (G.commands graph.now)) places.now }
    ensures turn { IsTurn (G.commands graph.now) places.now result }
    ensures number { result.number ≡ number }
{
    let place = places[number];
    let command = graph.at(place);
    Turn {
        is_merge: command.is_merge(),
        is_finalize: Reverse(command.is_finalize()),
        priority: Reverse(command.priority()),
        id: graph.id_at(place),
        place,
        number,
    }
}

/// Takes the first turn out of the heap.
pub fn first(heap: &mut BinaryHeap<Turn>) -> Option<Turn>
    requires { AreOrdered (heap_items heap.old) }
    ensures order { AreOrdered (heap_items heap.new) }
    ensures taken { IfSome result (λ turn. IsPermutation (heap_items heap.old) (turn ∷ heap_items heap.new)) }
    ensures lowest { IfSome result (λ turn. All (λ other. IsSooner other turn → ⊥) (heap_items heap.new)) }
    ensures length { IfSome result (λ turn. length (heap_items heap.new) + 1 ≡ length (heap_items heap.old)) }
    ensures none { IfNone result (length (heap_items heap.old) ≡ 0) }
{
    heap.pop()
}
