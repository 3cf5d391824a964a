ghost use Rattle.std.specs.Prelude.{◌≡◌, ◌<◌, ◌↔◌, [], ◌∷◌, ℕ, Bool, false, nat_eq, IfOk, OnOk, IsTrue, drop, length, slice_get, take};
ghost use Rattle.std.specs.List.{All, Contains};
ghost use Rattle.command.specs.Ancestors.{IsAt, IsUnder};
ghost use Rattle.command.specs.Kinds.{parents_of};
ghost use Rattle.command.specs.declared.command.Command.{Command as TheCommand};
ghost use Rattle.indexmap.specs.IndexSet.{IsUnique};
ghost use Rattle.braid.specs.working.Links.{AreNumbers, IsClosureWith, IsLeftId, Skips, left_of, listed, listed_links, places_of};
ghost use Rattle.braid.specs.working.Placing.{AddsWhere, HasOrIs, IsAmong};

use base_bytes::{Id, NoMemory};
use command::{Command, Graph};
use indexmap::IndexSet;
use std::alloc::Global;

/// The parents of a command of the closure, by their numbers there.
#[derive(Clone, Copy)]
pub struct Links {
    pub left: Option<usize>,
    pub right: Option<usize>,
}

/// The commands of a closure, numbered from 0: each one's place in the graph, and its parents.
#[derive(Drop)]
pub struct Found {
    pub places: IndexSet<usize>,
    pub links: Vec<Links>,
}

/// Whether the command at a place is that at the base, or an ancestor of it.
fn is_settled<G: Graph>(
    alloc: Global,
    graph: &G,
    base: Option<usize>,
    place: usize,
) -> Result<bool, NoMemory>
    requires base { All (λ p. p < length (G.commands graph.now)) (listed base) }
    requires place { place < length (G.commands graph.now) }
    ensures { IfOk result (λ settled. (x : TheCommand) → IsAt (G.commands graph.now) place x → IsTrue settled ↔ IsUnder (G.commands graph.now) (listed base) x) }
{
    let Some(base) = base else {
        return Ok(false);
    };
    if place == base {
        return Ok(true);
    }
    let settled = graph.is_ancestor(alloc, place, base)?;
    Ok(settled)
}

/// Numbers the command with this id, where it has no number yet and isn't settled.
fn add_place<G: Graph>(
    alloc: Global,
    graph: &G,
    base: Option<usize>,
    id: &Id,
    places: &mut IndexSet<usize>,
) -> Result<Option<usize>, NoMemory>
    requires base { All (λ p. p < length (G.commands graph.now)) (listed base) }
    ensures adds { OnOk result ((skip : ℕ → Bool) → Skips (G.commands graph.now) (listed base) skip → AddsWhere (IsLeftId (G.commands graph.now) skip) (G.commands graph.now) (id.now ∷ []) places.old.keys places.new.keys) }
    ensures number { IfOk result (λ number. (skip : ℕ → Bool) → Skips (G.commands graph.now) (listed base) skip → AreNumbers places.new.keys (listed number) (left_of skip (places_of (G.commands graph.now) (id.now ∷ [])))) }
{
    let Some(place) = graph.place_of(id) else {
        return Ok(None);
    };
    if is_settled(alloc, graph, base, place)? {
        return Ok(None);
    }
    let (number, _) = places.insert_full(place)?;
    Ok(Some(number))
}

/// The same for one of some ids, if there are so many.
fn add_nth<G: Graph>(
    alloc: Global,
    graph: &G,
    base: Option<usize>,
    ids: &[Id],
    nth: usize,
    places: &mut IndexSet<usize>,
) -> Result<Option<usize>, NoMemory>
    requires base { All (λ p. p < length (G.commands graph.now)) (listed base) }
    ensures adds { OnOk result ((skip : ℕ → Bool) → Skips (G.commands graph.now) (listed base) skip → AddsWhere (IsLeftId (G.commands graph.now) skip) (G.commands graph.now) (take 1 (drop nth ids.now)) places.old.keys places.new.keys) }
    ensures number { IfOk result (λ number. (skip : ℕ → Bool) → Skips (G.commands graph.now) (listed base) skip → AreNumbers places.new.keys (listed number) (left_of skip (places_of (G.commands graph.now) (take 1 (drop nth ids.now))))) }
{
    match ids.get(nth) {
        Some(id) => {
            let number = add_place(alloc, graph, base, id, places)?;
            Ok(number)
        }
        None => Ok(None),
    }
}

/// Numbers the parents of a command that aren't settled.
fn add_parents<G: Graph>(
    alloc: Global,
    graph: &G,
    base: Option<usize>,
    command: &Command,
    places: &mut IndexSet<usize>,
) -> Result<Links, NoMemory>
    requires base { All (λ p. p < length (G.commands graph.now)) (listed base) }
    ensures adds { OnOk result ((skip : ℕ → Bool) → Skips (G.commands graph.now) (listed base) skip → AddsWhere (IsLeftId (G.commands graph.now) skip) (G.commands graph.now) (parents_of command.now) places.old.keys places.new.keys) }
    ensures links { IfOk result (λ links. (skip : ℕ → Bool) → Skips (G.commands graph.now) (listed base) skip → AreNumbers places.new.keys (listed_links links) (left_of skip (places_of (G.commands graph.now) (parents_of command.now)))) }
{
    let parents = command.parents();
    let ids = parents.as_slice();
    let left = add_nth(alloc, graph, base, ids, 0, places)?;
    let right = add_nth(alloc, graph, base, ids, 1, places)?;
    Ok(Links { left, right })
}

/// Puts a tip's place to the others, unless it is settled.
fn add_tip<G: Graph>(
    alloc: Global,
    graph: &G,
    base: Option<usize>,
    tip: usize,
    places: &mut IndexSet<usize>,
) -> Result<(), NoMemory>
    requires base { All (λ p. p < length (G.commands graph.now)) (listed base) }
    requires tip { tip < length (G.commands graph.now) }
    ensures { OnOk result ((skip : ℕ → Bool) → Skips (G.commands graph.now) (listed base) skip → (p : ℕ) → Contains places.new.keys p ↔ HasOrIs (skip tip) tip places.old.keys p) }
{
    if is_settled(alloc, graph, base, tip)? {
        return Ok(());
    }
    places.insert(tip)?;
    Ok(())
}

/// The tips' places that aren't settled, each once.
fn tip_places<G: Graph>(
    alloc: Global,
    graph: &G,
    base: Option<usize>,
    tips: &[usize],
) -> Result<IndexSet<usize>, NoMemory>
    requires base { All (λ p. p < length (G.commands graph.now)) (listed base) }
    requires tips { All (λ p. p < length (G.commands graph.now)) tips.now }
    ensures { IfOk result (λ places. (skip : ℕ → Bool) → Skips (G.commands graph.now) (listed base) skip → (p : ℕ) → Contains places.keys p ↔ (Contains tips.now p × (skip p ≡ false))) }
{
    let mut places = IndexSet::new(alloc);
    for tip in tips {
        add_tip(alloc, graph, base, *tip, &mut places)?;
    }
    Ok(places)
}

/// The place of the command with this number.
fn nth_place(places: &IndexSet<usize>, nth: usize) -> Option<usize>
    ensures place { result ≡ slice_get places.now.keys nth }
    ensures distinct { IsUnique nat_eq places.now }
{
    if nth < places.len() {
        places.get_index(nth).copied()
    } else {
        None
    }
}

/// The closure of the tips, without that of the command at the base.
pub fn closure<G: Graph>(
    alloc: Global,
    graph: &G,
    base: Option<usize>,
    tips: &[usize],
) -> Result<Found, NoMemory>
    requires base { All (λ p. p < length (G.commands graph.now)) (listed base) }
    requires tips { All (λ p. p < length (G.commands graph.now)) tips.now }
    ensures { IfOk result (λ found. (skip : ℕ → Bool) → Skips (G.commands graph.now) (listed base) skip → IsClosureWith (G.commands graph.now) skip (listed base) tips.now found.places.keys found.links.items) }
{
    let mut places = tip_places(alloc, graph, base, tips)?;
    let mut links = Vec::new(alloc);
    while let Some(place) = nth_place(&places, links.len()) {
        links.push(add_parents(alloc, graph, base, graph.at(place), &mut places)?)?;
    }
    Ok(Found { places, links })
}
