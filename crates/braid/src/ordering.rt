ghost use Rattle.std.specs.Prelude.{◌≡◌, ◌<◌, ◌≤◌, ◌+◌, ℕ, Bool, false, List, [], ◌++◌, if◌then◌else◌, IfOk, OnOk, IfSome, Some, ◌∷◌, length, slice_get, get_or};
ghost use Rattle.std.specs.BinaryHeap.{heap_items};
ghost use Rattle.std.specs.List.{All, Contains, sum};
ghost use Rattle.command.specs.Ancestors.{IsAt};
ghost use Rattle.command.specs.declared.command.Command.{Command as TheCommand};
ghost use Rattle.braid.specs.Bases.{IsAbove, IsRest};
ghost use Rattle.braid.specs.Braids.{IsBraidOf, IsBraidUnder, picked};
ghost use Rattle.braid.specs.working.Links.{AreLinked, AreNumbers, IsClosureWith, listed, listed_links, parents_left, times};
ghost use Rattle.braid.specs.working.Turns.{AreOrdered, IsTurn, Offers, Standing, waiting};

use crate::children::children;
use crate::closure::closure;
use crate::turns::{Turn, first, turn_of};
use base_bytes::NoMemory;
use command::{Graph, Places};
use std::alloc::Global;
use std::collections::BinaryHeap;

/// Puts the command with this number into the heap, if none of its children remains.
fn offer<G: Graph>(
    graph: &G,
    places: &[usize],
    children: &[usize],
    number: usize,
    heap: &mut BinaryHeap<Turn>,
) -> Result<(), NoMemory>
    requires number { number < length places.now }
    requires children { length children.now ≡ length places.now }
    requires within { All (λ p. p < length (G.commands graph.now)) places.now }
    requires heap { AreOrdered (heap_items heap.old) }
    ensures heap { AreOrdered (heap_items heap.new) }
    ensures offers { OnOk result (Offers (G.commands graph.now) places.now number (get_or children.now number 0) (heap_items heap.old) (heap_items heap.new)) }
{
    if children[number] == 0 {
        heap.push(turn_of(graph, places, number))?;
    }
    Ok(())
}

/// Counts one child less of a parent, and offers it.
fn release<G: Graph>(
    graph: &G,
    places: &[usize],
    children: &mut Vec<usize>,
    number: Option<usize>,
    heap: &mut BinaryHeap<Turn>,
) -> Result<(), NoMemory>
    requires number { IfSome number (λ k. (k < length places.now) × (0 < get_or children.old.items k 0)) }
    requires children { length children.old.items ≡ length places.now }
    requires within { All (λ p. p < length (G.commands graph.now)) places.now }
    requires heap { AreOrdered (heap_items heap.old) }
    ensures heap { AreOrdered (heap_items heap.new) }
    ensures children { length children.new.items ≡ length children.old.items }
    ensures fewer { OnOk result (length (heap_items heap.new) + sum children.new.items ≤ length (heap_items heap.old) + sum children.old.items) }
    ensures standing { OnOk result ((skip : ℕ → Bool) (parents due remaining : List ℕ) → AreNumbers places.now (listed number) parents →
        ((p : ℕ) → times p places.now ≤ 1) → ((p : ℕ) → times p remaining ≤ 1) →
        Standing (G.commands graph.now) skip places.now children.old.items (heap_items heap.old) (parents ++ due) remaining →
        Standing (G.commands graph.now) skip places.now children.new.items (heap_items heap.new) due remaining) }
{
    let Some(number) = number else {
        return Ok(());
    };
    children[number] -= 1;
    offer(graph, places, children.as_slice(), number, heap)?;
    Ok(())
}

/// The commands that no command of the closure has as a parent.
fn tops<G: Graph>(
    alloc: Global,
    graph: &G,
    places: &[usize],
    children: &[usize],
) -> Result<BinaryHeap<Turn>, NoMemory>
    requires children { length children.now ≡ length places.now }
    requires within { All (λ p. p < length (G.commands graph.now)) places.now }
    requires once { (p : ℕ) → times p places.now ≤ 1 }
    ensures heap { IfOk result (λ heap. AreOrdered (heap_items heap)) }
    ensures standing { IfOk result (λ heap. (skip : ℕ → Bool) → ((k p : ℕ) → slice_get places.now k ≡ Some p → get_or children.now k 0 ≡ waiting (G.commands graph.now) skip [] places.now p) →
        ((p : ℕ) → Contains places.now p → skip p ≡ false) → Standing (G.commands graph.now) skip places.now children.now (heap_items heap) [] places.now) }
{
    let mut heap = BinaryHeap::new(alloc);
    for number in 0..places.len() {
        offer(graph, places, children, number, &mut heap)?;
    }
    Ok(heap)
}

/// Puts the place of a turn's command behind those that are placed, unless it is a merge. The last of the braid comes first there.
fn put(alloc: Global, turn: &Turn, placed: &mut Places) -> Result<(), NoMemory>
    ensures { OnOk result (placed.new ≡ (if turn.now.is_merge then placed.old else placed.old ++ turn.now.place ∷ [])) }
{
    if !turn.is_merge {
        placed.push(alloc, turn.place)?;
    }
    Ok(())
}

/// The places of the commands in the tips' closure that aren't in that of the command at the base, but for the merges, in the order of their braid.
fn braid_rest<G: Graph>(
    alloc: Global,
    graph: &G,
    base: Option<usize>,
    tips: &[usize],
) -> Result<Places, NoMemory>
    requires base { All (λ p. p < length (G.commands graph.now)) (listed base) }
    requires tips { All (λ p. p < length (G.commands graph.now)) tips.now }
    ensures braid { IfOk result (λ places. IsBraidOf (G.commands graph.now) (IsRest (G.commands graph.now) (listed base) tips.now) (picked (G.commands graph.now) places)) }
    ensures within { IfOk result (All (λ p. p < length (G.commands graph.now))) }
{
    let found = closure(alloc, graph, base, tips)?;
    let places = found.places.as_slice();
    let links = found.links.as_slice();
    let mut children = children(alloc, links)?;
    let mut heap = tops(alloc, graph, places, children.as_slice())?;
    let mut placed = Places::new(alloc);
    while let Some(turn) = first(&mut heap) {
        put(alloc, &turn, &mut placed)?;
        let them = links[turn.number];
        release(graph, places, &mut children, them.left, &mut heap)?;
        release(graph, places, &mut children, them.right, &mut heap)?;
    }
    placed.reverse();
    Ok(placed)
}

/// The places of the commands in the tips' closure, but for the merges, in the order of their braid.
pub fn braid<G: Graph>(alloc: Global, graph: &G, tips: &[usize]) -> Result<Places, NoMemory>
    requires { All (λ p. p < length (G.commands graph.now)) tips.now }
    ensures braid { IfOk result (λ places. IsBraidUnder (G.commands graph.now) tips.now (picked (G.commands graph.now) places)) }
    ensures within { IfOk result (All (λ p. p < length (G.commands graph.now))) }
{
    let places = braid_rest(alloc, graph, None, tips)?;
    Ok(places)
}

/// The same of the commands that stand above the command at the base.
pub fn braid_above<G: Graph>(
    alloc: Global,
    graph: &G,
    base: usize,
    tips: &[usize],
) -> Result<Places, NoMemory>
    requires base { base < length (G.commands graph.now) }
    requires tips { All (λ p. p < length (G.commands graph.now)) tips.now }
    ensures braid { IfOk result (λ places. (f : TheCommand) → IsAt (G.commands graph.now) base f → IsBraidOf (G.commands graph.now) (IsAbove (G.commands graph.now) tips.now f) (picked (G.commands graph.now) places)) }
    ensures within { IfOk result (All (λ p. p < length (G.commands graph.now))) }
{
    let places = braid_rest(alloc, graph, Some(base), tips)?;
    Ok(places)
}
