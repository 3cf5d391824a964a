use crate::plain::plain_braid;
use base_bytes::NoMemory;
use command::Graph;
use graph_set::ListGraph;
use samples::made::{braided, made};
use samples::writers::by_writers;
use std::alloc::Global;
use std::process::Abort;
use std::test::*;

fn assert_one_braid<R: Abort>(
    rt: &R,
    alloc: Global,
    graph: &ListGraph,
    tips: &[usize],
) -> Result<(), NoMemory> {
    let Some(places) = braided(alloc, graph, tips)? else {
        assert!(rt; false, "no tips");
        return Ok(());
    };
    let others = plain_braid(alloc, graph, tips)?;
    assert!(rt; places.as_slice() == others.as_slice(), "another order");
    Ok(())
}

fn assert_one_order<R: Abort>(rt: &R, alloc: Global, seed: usize) -> Result<(), NoMemory> {
    let steps = by_writers(alloc, 4 + seed % 12, 2 + seed % 3, seed)?;
    let Some(graph) = made::<ListGraph>(alloc, steps.as_slice())? else {
        assert!(rt; false, "no graph of the seed {seed}");
        return Ok(());
    };
    let heads = graph.heads(alloc)?;
    assert_one_braid(rt, alloc, &graph, heads.as_slice())?;
    assert_one_braid(rt, alloc, &graph, &[3, 2, 3])
}

#[test]
fn both_bodies_agree(rt: HostRuntime) -> Result<(), Fail> {
    for seed in 0..120 {
        assert_one_order(&rt, rt.alloc(), seed)?;
    }
    Ok(())
}
