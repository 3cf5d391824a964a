//! The facts of a closure: those that are kept, where it is all that is held; else from the facts at a base on.

ghost use Rattle.std.specs.Prelude.{◌≡◌, ◌<◌, ◌+◌, ◌*◌, ◌≤◌, ◌↔◌, ℕ, List, length, drop, IfOk, IfSome, OnOk, IsTrue};
ghost use Rattle.std.specs.List.{All, Contains};
ghost use Rattle.braid_run.specs.RunAbove.{AreAbove, AreAllUnder, AreRowsOfAll, AreRowsUnder, IsKeptBase};
ghost use Rattle.braid_run.specs.Runs.{run_of};
ghost use Rattle.braid.specs.Braids.{IsBraidUnder};
ghost use Rattle.command.specs.Ancestors.{IsAt, heads};
ghost use Rattle.command.specs.declared.command.Command.{Command};
ghost use Rattle.fact_store.specs.declared.row.Row.{Row};
ghost use Rattle.policy_meaning.specs.Blocks.{Runs, policy_block};
ghost use Rattle.policy_meaning.specs.Typed.{AreTyped, IsCommandOf};

use crate::Entries;
use crate::running::{Ran, run_above, run_all};
use base_bytes::{NoMemory, Steps};
use command::{Graph, Places};
use fact_store::FactBase;
use policy_meaning::{Call, Runner, Verdict};
use std::alloc::Global;
use std::sync::ledger::Ledger;

/// The facts that are kept of the closure of the command at a place.
#[derive(Drop)]
pub struct Kept<F: FactBase> {
    pub place: usize,
    pub facts: F,
}

/// Whether each of these places is among the others.
fn are_among(places: &[usize], others: &[usize]) -> bool
    ensures { IsTrue result ↔ ((p : ℕ) → Contains places.now p → Contains others.now p) }
{
    for place in places {
        if !others.contains(place) {
            return false;
        }
    }
    true
}

/// Whether the tips' closure is all that is held: the heads are tips.
pub fn covers<G: Graph>(alloc: Global, graph: &G, tips: &[usize]) -> Result<bool, NoMemory>
    ensures { IfOk result (λ covered. IsTrue covered ↔ AreAllUnder (G.commands graph.now) tips.now) }
{
    let heads = graph.heads(alloc)?;
    Ok(are_among(heads.as_slice(), tips))
}

/// A copy of facts of the policy's types.
fn copied<R: Runner, F: FactBase>(alloc: Global, runner: &R, facts: &F) -> Result<F, NoMemory>
    requires typed { AreTyped (R.rules runner.now) (F.rows facts.now) }
    ensures rows { IfOk result (λ other. F.rows other ≡ F.rows facts.now) }
    ensures typed { IfOk result (λ other. AreTyped (R.rules runner.now) (F.rows other)) }
{
    let other = facts.copy(alloc)?;
    Ok(other)
}

/// Runs the tips' closure on from what is kept of a base.
fn run_kept<R: Runner, G: Graph, F: FactBase, L: Ledger>(
    alloc: Global,
    runner: &R,
    graph: &G,
    kept: &Kept<F>,
    tips: &[usize],
    steps: &mut Steps<L>,
) -> Result<Ran<F>, NoMemory>
    requires place { kept.now.place < length (G.commands graph.now) }
    requires tips { All (λ place. place < length (G.commands graph.now)) tips.now }
    requires typed { AreTyped (R.rules runner.now) (F.rows kept.now.facts) }
    ensures rows { IfOk result (λ ran. IsKeptBase (R.rules runner.now) (G.commands graph.now) tips.now kept.now.place (F.rows kept.now.facts)
        → AreRowsUnder (R.rules runner.now) (G.commands graph.now) tips.now (F.rows ran.facts)) }
    ensures typed { IfOk result (λ ran. AreTyped (R.rules runner.now) (F.rows ran.facts)) }
    ensures at_most { (f : Command) (n : ℕ) → IsAt (G.commands graph.now) kept.now.place f → AreAbove (G.commands graph.now) tips.now f n → steps.new ≤ steps.old + 2 * n }
    ensures later { steps.old ≤ steps.new }
{
    let facts = copied(alloc, runner, &kept.facts)?;
    let ran = run_above(alloc, runner, graph, kept.place, tips, facts, steps)?;
    Ok(ran)
}

/// The facts of running the tips' closure. Where it is all that is held, they are the present facts, and nothing is run. Else the run begins at what is
/// kept of a base, and takes two ticks at most for each command above it.
pub fn facts_under<R: Runner, G: Graph, F: FactBase, L: Ledger>(
    alloc: Global,
    runner: &R,
    graph: &G,
    present: &F,
    kept: &Kept<F>,
    tips: &[usize],
    steps: &mut Steps<L>,
) -> Result<Ran<F>, NoMemory>
    requires place { kept.now.place < length (G.commands graph.now) }
    requires tips { All (λ place. place < length (G.commands graph.now)) tips.now }
    requires present { AreTyped (R.rules runner.now) (F.rows present.now) }
    requires typed { AreTyped (R.rules runner.now) (F.rows kept.now.facts) }
    ensures rows { IfOk result (λ ran. AreRowsOfAll (R.rules runner.now) (G.commands graph.now) (F.rows present.now)
        → IsKeptBase (R.rules runner.now) (G.commands graph.now) tips.now kept.now.place (F.rows kept.now.facts)
        → AreRowsUnder (R.rules runner.now) (G.commands graph.now) tips.now (F.rows ran.facts)) }
    ensures typed { IfOk result (λ ran. AreTyped (R.rules runner.now) (F.rows ran.facts)) }
    ensures whole { AreAllUnder (G.commands graph.now) tips.now → steps.new ≡ steps.old }
    ensures above { (f : Command) (n : ℕ) → IsAt (G.commands graph.now) kept.now.place f → AreAbove (G.commands graph.now) tips.now f n → steps.new ≤ steps.old + 2 * n }
    ensures later { steps.old ≤ steps.new }
{
    if covers(alloc, graph, tips)? {
        let facts = copied(alloc, runner, present)?;
        return Ok(Ran {
            facts,
            entries: Entries::new(alloc),
        });
    }
    let ran = run_kept(alloc, runner, graph, kept, tips, steps)?;
    Ok(ran)
}

/// What the policy says of a call over the facts of the tips' closure, and the facts behind it.
#[derive(Drop)]
pub struct Judgement<F: FactBase> {
    pub verdict: Verdict,
    pub facts: F,
}

/// Runs the policy block of a call over the facts of the tips' closure. One tick suffices where that is all that is held.
pub fn judged_under<R: Runner, G: Graph, F: FactBase, L: Ledger>(
    alloc: Global,
    runner: &R,
    graph: &G,
    present: &F,
    kept: &Kept<F>,
    tips: &[usize],
    call: &Call,
    steps: &mut Steps<L>,
) -> Result<Judgement<F>, NoMemory>
    requires place { kept.now.place < length (G.commands graph.now) }
    requires tips { All (λ place. place < length (G.commands graph.now)) tips.now }
    requires present { AreTyped (R.rules runner.now) (F.rows present.now) }
    requires typed { AreTyped (R.rules runner.now) (F.rows kept.now.facts) }
    requires declared { IsCommandOf (R.rules runner.now) call.now.command call.now.fields }
    ensures runs { IfOk result (λ judged. AreRowsOfAll (R.rules runner.now) (G.commands graph.now) (F.rows present.now)
        → IsKeptBase (R.rules runner.now) (G.commands graph.now) tips.now kept.now.place (F.rows kept.now.facts)
        → (rows : List Row) → AreRowsUnder (R.rules runner.now) (G.commands graph.now) tips.now rows
        → Runs (policy_block (R.rules runner.now) call.now rows) judged.verdict rows (F.rows judged.facts)) }
    ensures typed { IfOk result (λ judged. AreTyped (R.rules runner.now) (F.rows judged.facts)) }
    ensures whole { OnOk result (AreAllUnder (G.commands graph.now) tips.now → steps.new ≡ steps.old + 1) }
    ensures above { (f : Command) (n : ℕ) → IsAt (G.commands graph.now) kept.now.place f → AreAbove (G.commands graph.now) tips.now f n → steps.new ≤ steps.old + (1 + 2 * n) }
{
    let Ran { mut facts, .. } = facts_under(alloc, runner, graph, present, kept, tips, steps)?;
    let verdict = runner.run_command(alloc, call, &mut facts, steps)?;
    Ok(Judgement { verdict, facts })
}
