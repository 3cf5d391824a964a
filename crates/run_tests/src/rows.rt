// Commands that no policy declares are run in the order of the braid: each has an entry, is void and changes nothing, and the run goes on behind it.
ghost use Rattle.std.specs.Prelude.{◌≡◌, ◌<◌};

use crate::NoCommands;
use base_bytes::{NoMemory, Steps};
use braid_run::laws::heads_are_places;
use braid_run::{Entry, Outcome, Ran, run_all};
use command::Graph;
use fact_store::{FactBase, Facts, Wanted};
use graph_set::ListGraph;
use samples::made::{Step, id_at, made};
use sqlite_items::Items;
use std::alloc::Global;
use std::marker::Brand;
use std::sync::ledger::{Blank, Ledger};
use std::test::*;

struct Row {
    name: &'static str,
    steps: &'static [Step],
    /// The places of the commands, in the order in which they are run.
    order: &'static [usize],
}

const ROWS: [Row; 4] = [
    Row {
        name: "a lower and a higher priority behind an init",
        steps: &[Step::Init(0), Step::Basic(1, 0, 1), Step::Basic(10, 0, 2)],
        order: &[0, 2, 1],
    },
    Row {
        name: "a middle priority beside a lower one and a higher one behind it",
        steps: &[
            Step::Init(0),
            Step::Basic(1, 0, 1),
            Step::Basic(10, 1, 2),
            Step::Basic(5, 0, 3),
        ],
        order: &[0, 1, 2, 3],
    },
    Row {
        name: "what is written beside what takes the writer away",
        steps: &[
            Step::Init(0),
            Step::Basic(20, 0, 1),
            Step::Basic(10, 1, 2),
            Step::Basic(30, 1, 3),
        ],
        order: &[0, 1, 3, 2],
    },
    Row {
        name: "a merge has no entry",
        steps: &[
            Step::Init(0),
            Step::Basic(1, 0, 1),
            Step::Basic(10, 0, 2),
            Step::Merge(1, 2),
            Step::Finalize(3, 3),
        ],
        order: &[0, 2, 1, 4],
    },
];

fn ran<L: Ledger>(alloc: Global, graph: &ListGraph, blank: Blank) -> Result<Ran<Facts>, NoMemory>
    requires name { blank.name ≡ L.name }
    requires parts { blank.parts ≡ L.parts }
    requires some { 0 < L.parts }
{
    let mut steps = Steps::<L>::start(blank);
    let heads = graph.heads(alloc)?;
    heads_are_places();
    let runner = NoCommands::new(alloc);
    run_all(alloc, &runner, graph, heads.as_slice(), &mut steps)
}

fn is_void_at(graph: &ListGraph, place: usize, entry: &Entry) -> bool {
    id_at(graph, place) == Some(entry.id)
        && entry.outcome == Outcome::Void
        && entry.effects.len() == 0
}

fn are_void_at(graph: &ListGraph, places: &[usize], entries: &[Entry]) -> bool {
    if places.len() != entries.len() {
        return false;
    }
    for i in 0..places.len() {
        if i < entries.len() && !is_void_at(graph, places[i], &entries[i]) {
            return false;
        }
    }
    true
}

/// How many facts of item 0 there are, counted up to 1.
fn facts(alloc: Global, facts: &Facts) -> u64 {
    let wanted = Wanted {
        fact: 0,
        keys: Items::new(alloc),
        values: Items::new(alloc),
    };
    facts.count_up_to(&wanted, 1)
}

fn is_as_written(alloc: Global, row: &Row) -> Result<bool, NoMemory> {
    let Some(graph) = made::<ListGraph>(alloc, row.steps)? else {
        return Ok(false);
    };
    let ran = ran::<Brand>(alloc, &graph, Blank::new(1))?;
    Ok(are_void_at(&graph, row.order, ran.entries.as_slice()) && facts(alloc, &ran.facts) == 0)
}

#[test]
fn what_is_no_call_is_void(rt: HostRuntime) -> Result<(), Fail> {
    for row in &ROWS {
        assert!(rt; is_as_written(rt.alloc(), row)?, "{}", row.name);
    }
    Ok(())
}
