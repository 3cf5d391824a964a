use base_bytes::NoMemory;
use command::Graph;
use graph_set::ListGraph;
use samples::made::{Step, braided, made};
use samples::writers::by_writers;
use std::alloc::Global;

/// What is asked of a graph.
#[derive(Clone, Copy)]
pub enum Ask {
    /// The braid of its heads.
    Braid,
    /// Whether its first command is an ancestor of its last.
    Ancestor,
}

/// How the commands of a graph are linked.
#[derive(Clone, Copy)]
pub enum Shape {
    /// Two strands of so many commands, side by side.
    Strands,
    /// One strand of so many.
    Chain,
    /// So many diamonds, one behind the other, each ended by a merge.
    Diamonds,
    /// So many by eight writers, who merge and finalize now and then.
    Writers,
}

fn strands(alloc: Global, size: usize) -> Result<Vec<Step>, NoMemory> {
    let mut steps = Vec::new(alloc);
    steps.push(Step::Init(0))?;
    steps.push(Step::Basic(1, 0, 0))?;
    steps.push(Step::Basic(2, 0, 0))?;
    for _ in 1..size {
        let place = steps.len();
        steps.push(Step::Basic(1, place.saturating_sub(2), 0))?;
        steps.push(Step::Basic(2, place.saturating_sub(1), 0))?;
    }
    Ok(steps)
}

fn chain(alloc: Global, size: usize) -> Result<Vec<Step>, NoMemory> {
    let mut steps = Vec::new(alloc);
    steps.push(Step::Init(0))?;
    for _ in 1..size {
        steps.push(Step::Basic(1, steps.len().saturating_sub(1), 0))?;
    }
    Ok(steps)
}

fn diamonds(alloc: Global, size: usize) -> Result<Vec<Step>, NoMemory> {
    let mut steps = Vec::new(alloc);
    steps.push(Step::Init(0))?;
    for _ in 0..size {
        let place = steps.len();
        let last = place.saturating_sub(1);
        steps.push(Step::Basic(1, last, 0))?;
        steps.push(Step::Basic(2, last, 0))?;
        steps.push(Step::Merge(place, place.saturating_add(1)))?;
    }
    Ok(steps)
}

fn answer(alloc: Global, graph: &ListGraph, ask: Ask) -> Result<usize, NoMemory> {
    match ask {
        Ask::Braid => {
            let heads = graph.heads(alloc)?;
            match braided(alloc, graph, heads.as_slice())? {
                Some(places) => Ok(places.len()),
                None => Ok(0),
            }
        }
        Ask::Ancestor => {
            let mut found = 0;
            if graph.len() > 1 {
                if graph.is_ancestor(alloc, 0, graph.len() - 1)? {
                    found = 1;
                }
            }
            Ok(found)
        }
    }
}

/// Asks a graph of this shape so many times, and answers how many commands were placed in all, or how often the first one was an ancestor of the last.
pub fn run(
    alloc: Global,
    ask: Ask,
    shape: Shape,
    size: usize,
    rounds: u32,
) -> Result<usize, NoMemory> {
    let steps = match shape {
        Shape::Strands => strands(alloc, size)?,
        Shape::Chain => chain(alloc, size)?,
        Shape::Diamonds => diamonds(alloc, size)?,
        Shape::Writers => by_writers(alloc, size, 8, 1)?,
    };
    let Some(graph) = made::<ListGraph>(alloc, steps.as_slice())? else {
        return Ok(0);
    };
    let mut all = 0usize;
    for _ in 0..rounds {
        all = all.saturating_add(answer(alloc, &graph, ask)?);
    }
    Ok(all)
}
