// The rule of the braid taken at its word, as a second opinion: each step looks at all that remains.
use base_bytes::NoMemory;
use command::{Command, Graph, Places};
use std::alloc::Global;
use std::cmp::Ordering;

/// The command at a place, if one stands there.
fn command_at<G: Graph>(graph: &G, place: usize) -> Option<&Command> {
    if place < graph.len() {
        Some(graph.at(place))
    } else {
        None
    }
}

fn is_plain<G: Graph>(graph: &G, place: usize) -> bool {
    match command_at(graph, place) {
        Some(command) => !command.is_merge(),
        None => false,
    }
}

fn is_ancestor<G: Graph>(
    alloc: Global,
    graph: &G,
    older: usize,
    newer: usize,
) -> Result<bool, NoMemory> {
    if older < graph.len() {
        if newer < graph.len() {
            return graph.is_ancestor(alloc, older, newer);
        }
    }
    Ok(false)
}

/// Whether the command at a place is an ancestor of one at these.
fn is_under<G: Graph>(
    alloc: Global,
    graph: &G,
    place: usize,
    places: &[usize],
) -> Result<bool, NoMemory> {
    for other in places {
        if is_ancestor(alloc, graph, place, *other)? {
            return Ok(true);
        }
    }
    Ok(false)
}

/// The places of the tips and of their ancestors, but for the merges.
fn closure<G: Graph>(alloc: Global, graph: &G, tips: &[usize]) -> Result<Vec<usize>, NoMemory> {
    let mut places = Vec::new(alloc);
    for place in 0..graph.len() {
        let is_wanted = tips.contains(&place) || is_under(alloc, graph, place, tips)?;
        if is_wanted && is_plain(graph, place) {
            places.push(place)?;
        }
    }
    Ok(places)
}

/// Whether the first command is lower than the second, where neither is a merge.
fn is_lower<G: Graph>(graph: &G, one: usize, other: usize) -> bool {
    if one >= graph.len() {
        return false;
    }
    if other >= graph.len() {
        return false;
    }
    let (x, y) = (graph.at(one), graph.at(other));
    let order = x
        .is_finalize()
        .cmp(&y.is_finalize())
        .then(x.priority().cmp(&y.priority()))
        .then(graph.id_at(other).cmp(&graph.id_at(one)));
    order == Ordering::Less
}

/// The lower one of a place and the best so far.
fn lower<G: Graph>(graph: &G, best: Option<usize>, place: usize) -> usize {
    match best {
        Some(best) => {
            if is_lower(graph, place, best) {
                place
            } else {
                best
            }
        }
        None => place,
    }
}

/// The lowest of those places whose commands are ancestors of none at these.
fn lowest_top<G: Graph>(
    alloc: Global,
    graph: &G,
    remaining: &[usize],
) -> Result<Option<usize>, NoMemory> {
    let mut best = None;
    for place in remaining {
        if !is_under(alloc, graph, *place, remaining)? {
            best = Some(lower(graph, best, *place));
        }
    }
    Ok(best)
}

/// The braid of the tips' closure, by the rule.
pub fn plain_braid<G: Graph>(alloc: Global, graph: &G, tips: &[usize]) -> Result<Places, NoMemory> {
    let mut remaining = closure(alloc, graph, tips)?;
    let mut placed = Places::new(alloc);
    for _ in 0..graph.len() {
        if let Some(lowest) = lowest_top(alloc, graph, remaining.as_slice())? {
            placed.push(alloc, lowest)?;
            remaining.retain(|place| *place != lowest);
        }
    }
    placed.reverse();
    Ok(placed)
}
