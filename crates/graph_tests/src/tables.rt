use crate::pairs::{PAIRS, Pair};
use crate::rows::{ROWS, Row};
use base_bytes::{Id, NoMemory};
use command::Graph;
use graph_set::ListGraph;
use samples::made::{braided, id_at, made};
use std::alloc::Global;
use std::process::Abort;
use std::test::*;

fn is_ancestor<G: Graph>(
    alloc: Global,
    graph: &G,
    older: usize,
    newer: usize,
) -> Result<bool, NoMemory> {
    if older < graph.len() {
        if newer < graph.len() {
            return graph.is_ancestor(alloc, older, newer);
        }
    }
    Ok(false)
}

fn assert_braid<R: Abort>(rt: &R, alloc: Global, row: &Row) -> Result<(), NoMemory> {
    let Some(graph) = made::<ListGraph>(alloc, row.steps)? else {
        assert!(rt; false, "{}: no graph", row.name);
        return Ok(());
    };
    let Some(places) = braided(alloc, &graph, row.tips)? else {
        assert!(rt; false, "{}: no tips", row.name);
        return Ok(());
    };
    assert!(rt;
        places.as_slice() == row.braid,
        "{}: another order",
        row.name
    );
    Ok(())
}

fn assert_links<R: Abort>(rt: &R, alloc: Global, row: &Row) -> Result<(), NoMemory> {
    let Some(graph) = made::<ListGraph>(alloc, row.steps)? else {
        assert!(rt; false, "{}: no graph", row.name);
        return Ok(());
    };
    let heads = graph.heads(alloc)?;
    assert!(rt; heads.as_slice() == row.heads, "{}: other heads", row.name);
    for (newer, ancestors) in row.ancestors.iter().enumerate() {
        for older in 0..row.steps.len() {
            let found = is_ancestor(alloc, &graph, older, newer)?;
            let wanted = ancestors.contains(&older);
            assert!(rt; found == wanted, "{}: {older} before {newer}", row.name);
        }
    }
    Ok(())
}

#[test]
fn each_graph_has_its_braid(rt: HostRuntime) -> Result<(), Fail> {
    for row in &ROWS {
        assert_braid(&rt, rt.alloc(), row)?;
    }
    Ok(())
}

#[test]
fn each_command_has_its_ancestors(rt: HostRuntime) -> Result<(), Fail> {
    for row in &ROWS {
        assert_links(&rt, rt.alloc(), row)?;
    }
    Ok(())
}

// The ids in the order of the row's braid.
fn ids_in_order(alloc: Global, row: &Row) -> Result<Vec<Id>, NoMemory> {
    let mut ids = Vec::new(alloc);
    let Some(graph) = made::<ListGraph>(alloc, row.steps)? else {
        return Ok(ids);
    };
    let Some(places) = braided(alloc, &graph, row.tips)? else {
        return Ok(ids);
    };
    for place in places.as_slice() {
        if let Some(id) = id_at(&graph, *place) {
            ids.push(id)?;
        }
    }
    Ok(ids)
}

fn assert_one_order<R: Abort>(rt: &R, alloc: Global, pair: &Pair) -> Result<(), NoMemory> {
    let one = ids_in_order(alloc, &pair.one)?;
    let other = ids_in_order(alloc, &pair.other)?;
    assert!(rt;
        one.len() == pair.one.braid.len(),
        "{}: not all",
        pair.one.name
    );
    assert!(rt;
        one.as_slice() == other.as_slice(),
        "{}: other ids",
        pair.other.name
    );
    Ok(())
}

#[test]
fn the_same_commands_have_one_order(rt: HostRuntime) -> Result<(), Fail> {
    for pair in &PAIRS {
        assert_one_order(&rt, rt.alloc(), pair)?;
    }
    Ok(())
}
