//! The facts at a command's place.

ghost use Rattle.std.specs.Prelude.{◌≡◌, ◌<◌, ◌+◌, ◌≤◌, ◌++◌, List, length, IfOk, OnOk};
ghost use Rattle.std.specs.List.{All, filter_map};
ghost use Rattle.braid.specs.Braids.{IsBraidOf};
ghost use Rattle.braid_run.specs.Places.{AreAtPlace, IsBehind, parent_places};
ghost use Rattle.braid_run.specs.Runs.{run_of};
ghost use Rattle.command.specs.Closed.{place_of};
ghost use Rattle.command.specs.declared.command.Command.{Command as TheCommand};
ghost use Rattle.policy_meaning.specs.Typed.{AreTyped};

use base_bytes::{Id, NoMemory, Steps};
use braid_run::{Ran, run_all};
use command::{Command, Graph, Places};
use fact_store::FactBase;
use policy_meaning::Runner;
use std::alloc::Global;
use std::sync::ledger::Ledger;

/// The places of those of these ids that are held.
fn places_of<G: Graph>(alloc: Global, graph: &G, ids: &[Id]) -> Result<Places, NoMemory>
    ensures { IfOk result (λ places. places ≡ filter_map (place_of (G.commands graph.now)) ids.now) }
{
    let mut places = Places::new(alloc);
    for id in ids {
        if let Some(place) = graph.place_of(id) {
            places.push(alloc, place)?;
        }
    }
    Ok(places)
}

/// The places of the command's parents.
fn parent_places<G: Graph>(alloc: Global, graph: &G, command: &Command) -> Result<Places, NoMemory>
    ensures places { IfOk result (λ places. places ≡ parent_places (G.commands graph.now) command.now) }
    ensures within { IfOk result (λ places. All (λ place. place < length (G.commands graph.now)) places) }
{
    let parents = command.parents();
    places_of(alloc, graph, parents.as_slice())
}

/// Runs the braid of the closure of the command's parents: the facts at its place.
pub fn facts_at_place<R: Runner, G: Graph, F: FactBase, L: Ledger>(
    alloc: Global,
    runner: &R,
    graph: &G,
    command: &Command,
    steps: &mut Steps<L>,
) -> Result<F, NoMemory>
    ensures facts { IfOk result (λ facts. AreAtPlace (R.rules runner.now) (G.commands graph.now) command.now (F.rows facts)) }
    ensures typed { IfOk result (λ facts. AreTyped (R.rules runner.now) (F.rows facts)) }
    ensures ticks { OnOk result ((braid : List TheCommand) → IsBraidOf (G.commands graph.now) (IsBehind (G.commands graph.now) command.now) braid
        → steps.new ≡ steps.old + (run_of (R.rules runner.now) braid).ticks) }
    ensures at_most { (braid : List TheCommand) → IsBraidOf (G.commands graph.now) (IsBehind (G.commands graph.now) command.now) braid
        → steps.new ≤ steps.old + (run_of (R.rules runner.now) braid).ticks }
{
    let tips = parent_places(alloc, graph, command)?;
    let Ran { facts, .. } = run_all::<R, G, F, L>(alloc, runner, graph, tips.as_slice(), steps)?;
    Ok(facts)
}
