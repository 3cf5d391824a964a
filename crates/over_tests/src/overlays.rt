use base_bytes::{Id, NoMemory};
use command::Graph;
use graph_over::Over;
use graph_set::ListGraph;
use samples::made::{Step, append, command, made};
use std::alloc::Global;
use std::process::Abort;
use std::test::*;

// An init, and two strands behind it.
const BELOW: [Step; 3] = [Step::Init(0), Step::Basic(1, 0, 1), Step::Basic(1, 0, 2)];

// What is added behind them: one command on the first strand, a merge of the two, and one command on the second strand.
const ADDED: [Step; 3] = [
    Step::Basic(1, 1, 3),
    Step::Merge(3, 2),
    Step::Basic(1, 2, 4),
];

// The ancestors of each of the six.
const ANCESTORS: [&[usize]; 6] = [&[], &[0], &[0], &[0, 1], &[0, 1, 2, 3], &[0, 2]];

const HEADS: [usize; 2] = [4, 5];

fn below<R: Abort>(rt: &R, alloc: Global) -> Result<ListGraph, NoMemory> {
    match made::<ListGraph>(alloc, &BELOW)? {
        Some(graph) => Ok(graph),
        None => {
            assert!(rt; false, "no graph");
            ListGraph::empty(alloc)
        }
    }
}

fn is_added<G: Graph>(alloc: Global, graph: &mut G, step: Step) -> Result<bool, NoMemory> {
    match command(alloc, graph, step)? {
        Some(command) => Ok(append(graph, command)),
        None => Ok(false),
    }
}

fn extended<'a, R: Abort>(
    rt: &R,
    alloc: Global,
    below: &'a ListGraph,
) -> Result<Over<'a, ListGraph>, NoMemory> {
    let mut over = Over::on(alloc, below);
    over.reserve(alloc, 4)?;
    for step in &ADDED {
        let is_added = is_added(alloc, &mut over, *step)?;
        assert!(rt; is_added);
    }
    Ok(over)
}

fn is_ancestor<G: Graph>(
    alloc: Global,
    graph: &G,
    older: usize,
    newer: usize,
) -> Result<bool, NoMemory> {
    if older < graph.len() {
        if newer < graph.len() {
            return graph.is_ancestor(alloc, older, newer);
        }
    }
    Ok(false)
}

fn assert_links<R: Abort, G: Graph>(rt: &R, alloc: Global, graph: &G) -> Result<(), NoMemory> {
    let heads = graph.heads(alloc)?;
    assert!(rt; heads.as_slice() == HEADS.as_slice());
    for (newer, ancestors) in ANCESTORS.iter().enumerate() {
        for older in 0..6 {
            let found = is_ancestor(alloc, graph, older, newer)?;
            assert!(rt;
                found == ancestors.contains(&older),
                "{older} before {newer}"
            );
        }
    }
    Ok(())
}

// Heads and ancestors are those of all commands, below and added, and each id leads to its place.
#[test]
fn an_overlay_is_one_graph(rt: HostRuntime) -> Result<(), Fail> {
    let alloc = rt.alloc();
    let below = below(&rt, alloc)?;
    let over = extended(&rt, alloc, &below)?;
    assert!(rt; over.len() == 6);
    assert_links(&rt, alloc, &over)?;
    for place in 0..over.len() {
        let id = over.id_at(place);
        assert!(rt; over.place_of(&id) == Some(place), "{place}");
    }
    assert!(rt; over.place_of(&Id::new([0; 32])).is_none());
    Ok(())
}

// A copy borrows the same graph and goes its own way; what was added to it is given.
#[test]
fn a_copy_stays(rt: HostRuntime) -> Result<(), Fail> {
    let alloc = rt.alloc();
    let below = below(&rt, alloc)?;
    let mut over = extended(&rt, alloc, &below)?;
    let copy = over.copy(alloc)?;
    let is_added = is_added(alloc, &mut over, Step::Merge(5, 4))?;
    assert!(rt; is_added);
    assert!(rt; over.len() == 7 && copy.len() == 6 && below.len() == 3);
    assert_links(&rt, alloc, &copy)?;
    let commands = copy.into_added(alloc)?;
    assert!(rt; commands.as_slice().len() == 3);
    Ok(())
}
