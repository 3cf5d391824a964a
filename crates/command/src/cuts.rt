ghost use Rattle.std.specs.Prelude.{◌≡◌, ◌<◌, ◌≤◌, ℕ, get_or, length, IfOk};
ghost use Rattle.command.specs.Cuts.{cuts, next_cut, number_at};
ghost use Rattle.command.specs.Places.{place_of};

use crate::graph::Graph;
use base_bytes::{Id, NoMemory};
use std::alloc::Global;

/// The cut of the command at a place: 0 for an init, and else one more than the greatest cut of a parent. It is worked out from the
/// first command on.
pub fn cut_of<G: Graph>(alloc: Global, graph: &G, place: usize) -> Result<u32, NoMemory>
    requires { place < length (G.commands graph.now) }
    ensures { IfOk result (λ cut. cut ≡ get_or (cuts (G.commands graph.now)) place 0) }
{
    let mut numbers = Vec::new(alloc);
    for next in 0..place + 1 {
        let parents = graph.at(next).parents();
        let cut = next_cut(graph, numbers.as_slice(), parents.as_slice());
        numbers.push(cut)?;
    }
    Ok(numbers[place])
}

/// The cut of a command with these parents, where the first cuts are known.
fn next_cut<G: Graph>(graph: &G, numbers: &[u32], parents: &[Id]) -> u32
    requires small { (place : ℕ) → get_or numbers.now place 0 < 65536 }
    ensures value { result ≡ next_cut (G.commands graph.now) numbers.now parents.now }
    ensures small { result ≤ 65536 }
{
    match parents {
        [] => 0,
        [first, rest @ ..] => (number_of(graph, numbers, first) + 1).max(next_cut(
            graph, numbers, rest,
        )),
    }
}

/// The number of the command with this id.
fn number_of<G: Graph>(graph: &G, numbers: &[u32], id: &Id) -> u32
    ensures { result ≡ number_at numbers.now (place_of (G.commands graph.now) id.now) }
{
    match graph.place_of(id) {
        Some(place) => match numbers.get(place) {
            Some(number) => *number,
            None => 0,
        },
        None => 0,
    }
}
