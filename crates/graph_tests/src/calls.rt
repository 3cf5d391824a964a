use base_bytes::{Id, NoMemory};
use command::Graph;
use graph_set::ListGraph;
use samples::made::{Step, append, command, id_at, made};
use std::alloc::Global;
use std::process::Abort;
use std::test::*;

const STEPS: [Step; 3] = [Step::Init(0), Step::Basic(1, 0, 1), Step::Basic(2, 1, 2)];

fn graph<R: Abort>(rt: &R, alloc: Global) -> Result<ListGraph, NoMemory> {
    match made::<ListGraph>(alloc, &STEPS)? {
        Some(graph) => Ok(graph),
        None => {
            assert!(rt; false, "no graph");
            ListGraph::empty(alloc)
        }
    }
}

// Each command stands at the place that its id leads to, and no other id leads anywhere.
#[test]
fn ids_lead_to_places(rt: HostRuntime) -> Result<(), Fail> {
    let graph = graph(&rt, rt.alloc())?;
    assert!(rt; graph.len() == 3);
    for place in 0..graph.len() {
        let id = graph.id_at(place);
        assert!(rt; graph.place_of(&id) == Some(place), "{place}");
    }
    assert!(rt; graph.place_of(&Id::new([0; 32])).is_none());
    Ok(())
}

// A copy holds the same, and goes its own way.
#[test]
fn a_copy_stays(rt: HostRuntime) -> Result<(), Fail> {
    let alloc = rt.alloc();
    let mut graph = graph(&rt, alloc)?;
    let copy = graph.copy(alloc)?;
    graph.reserve(alloc, 2)?;
    let room = graph.spare();
    assert!(rt; room >= 2);
    let next = command(alloc, &graph, Step::Basic(3, 2, 3))?;
    let is_appended = match next {
        Some(next) => append(&mut graph, next),
        None => false,
    };
    assert!(rt; is_appended);
    assert!(rt; graph.spare().saturating_add(1) == room);
    assert!(rt; graph.len() == 4 && copy.len() == 3);
    for place in 0..copy.len() {
        assert!(rt; id_at(&copy, place) == id_at(&graph, place), "{place}");
    }
    Ok(())
}

// What may not be appended is what the call's conditions rule out: a command that is held, a merge of one command with itself,
// and a command whose parent isn't held.
#[test]
fn commands_stand_once(rt: HostRuntime) -> Result<(), Fail> {
    let alloc = rt.alloc();
    let twice = made::<ListGraph>(alloc, &[Step::Init(0), Step::Init(0)])?;
    assert!(rt; twice.is_none());
    let itself = made::<ListGraph>(alloc, &[Step::Init(0), Step::Merge(0, 0)])?;
    assert!(rt; itself.is_none());
    let none = made::<ListGraph>(alloc, &[Step::Init(0), Step::Basic(1, 5, 1)])?;
    assert!(rt; none.is_none());
    Ok(())
}
