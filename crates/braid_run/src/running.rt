ghost use Rattle.std.specs.Prelude.{◌≡◌, ◌<◌, ◌+◌, ◌*◌, ◌≤◌, ℕ, [], List, length, IfOk, OnOk, Some};
ghost use Rattle.std.specs.List.{All};
ghost use Rattle.base_bytes.specs.Reaching.{NoneReachesItself};
ghost use Rattle.braid.specs.Braids.{IsBraidUnder, picked};
ghost use Rattle.braid_run.specs.RunOf.{IsRunUnder};
ghost use Rattle.braid_run.specs.RunAbove.{AreAbove, IsRunAbove, IsRunFrom};
ghost use Rattle.braid_run.specs.Runs.{call_ticks, command_ticks, entry_of, rows_behind, run_from, run_of, run_on};
ghost use Rattle.command.specs.Ancestors.{IsAt};
ghost use Rattle.command.specs.Wire.{IsInForm};
ghost use Rattle.command.specs.declared.command.Command.{Command};
ghost use Rattle.policy_ast.specs.declared.policy.PlacedItem.{PlacedItem};
ghost use Rattle.policy_meaning.specs.Blocks.{recall_block};
ghost use Rattle.policy_meaning.specs.Commands.{Void, call_judged, judged, recalled};
ghost use Rattle.policy_meaning.specs.Typed.{AreEffectsOf, AreTyped, IsCommandOf};
ghost use Rattle.policy_rules.specs.Shapes.{shapes_of};
ghost use Rattle.policy_rules.specs.WellTyped.{items_of};

use crate::{Entries, Entry, Outcome};
use base_bytes::{Id, NoMemory, Shapes, Steps};
use braid::{braid, braid_above};
use command::{Command, Graph};
use fact_store::FactBase;
use policy_meaning::{Call, Effects, Runner, Verdict, call_of, shapes};
use policy_rules::laws::structs_are_finite;
use std::alloc::Global;
use std::sync::ledger::Ledger;

/// What a run leaves: the facts, and an entry for each command in the braid's order.
#[derive(Drop)]
pub struct Ran<F: FactBase> {
    pub facts: F,
    pub entries: Entries,
}

fn entry(id: Id, outcome: Outcome, effects: Effects) -> Entry
    ensures { result ≡ record { id = id; outcome = outcome; effects = effects } }
{
    Entry {
        id,
        outcome,
        effects,
    }
}

/// The entry of a command that changed nothing.
fn void(alloc: Global, id: Id) -> Entry
    ensures entry { result ≡ entry_of id Void }
    ensures typed { (policy : List PlacedItem) → AreEffectsOf policy result.effects }
{
    entry(id, Outcome::Void, Effects::new(alloc))
}

/// Runs the recall block of a call, whose policy failed a check.
fn run_recall<R: Runner, F: FactBase, L: Ledger>(
    alloc: Global,
    runner: &R,
    id: Id,
    call: &Call,
    facts: &mut F,
    steps: &mut Steps<L>,
) -> Result<Entry, NoMemory>
    requires declared { IsCommandOf (R.rules runner.now) call.now.command call.now.fields }
    requires typed { AreTyped (R.rules runner.now) (F.rows facts.old) }
    ensures entry { IfOk result (λ entry. entry ≡ entry_of id (recalled (recall_block (R.rules runner.now) call.now (F.rows facts.old)))) }
    ensures rows { OnOk result (F.rows facts.new ≡ rows_behind (recalled (recall_block (R.rules runner.now) call.now (F.rows facts.old))) (F.rows facts.old)) }
    ensures typed { OnOk result (AreTyped (R.rules runner.now) (F.rows facts.new)) }
    ensures effects { IfOk result (λ entry. AreEffectsOf (R.rules runner.now) entry.effects) }
    ensures tick { steps.new ≡ steps.old + 1 }
{
    match runner.run_recall(alloc, call, facts, steps)? {
        Verdict::Pass(effects) => Ok(entry(id, Outcome::Recalled, effects)),
        Verdict::Check => Ok(void(alloc, id)),
        Verdict::Fault(_) => Ok(void(alloc, id)),
    }
}

/// Runs the blocks of a call: its policy block, and behind a failed check its recall block.
#[tactic(auto, using(crate::proofs::RunFacts::one_tick))]
fn run_call<R: Runner, F: FactBase, L: Ledger>(
    alloc: Global,
    runner: &R,
    id: Id,
    call: &Call,
    facts: &mut F,
    steps: &mut Steps<L>,
) -> Result<Entry, NoMemory>
    requires declared { IsCommandOf (R.rules runner.now) call.now.command call.now.fields }
    requires typed { AreTyped (R.rules runner.now) (F.rows facts.old) }
    ensures entry { IfOk result (λ entry. entry ≡ entry_of id (call_judged (R.rules runner.now) (F.rows facts.old) (Some call.now))) }
    ensures rows { OnOk result (F.rows facts.new ≡ rows_behind (call_judged (R.rules runner.now) (F.rows facts.old) (Some call.now)) (F.rows facts.old)) }
    ensures typed { OnOk result (AreTyped (R.rules runner.now) (F.rows facts.new)) }
    ensures effects { IfOk result (λ entry. AreEffectsOf (R.rules runner.now) entry.effects) }
    ensures ticks { OnOk result (steps.new ≡ steps.old + call_ticks (R.rules runner.now) (F.rows facts.old) (Some call.now)) }
    ensures at_most { steps.new ≤ steps.old + call_ticks (R.rules runner.now) (F.rows facts.old) (Some call.now) }
    ensures later { steps.old ≤ steps.new }
{
    match runner.run_command(alloc, call, facts, steps)? {
        Verdict::Pass(effects) => Ok(entry(id, Outcome::Pass, effects)),
        Verdict::Check => run_recall(alloc, runner, id, call, facts, steps),
        Verdict::Fault(_) => Ok(void(alloc, id)),
    }
}

/// Runs a command of this id. Of one that is no call by the policy nothing is run.
fn run_command<R: Runner, F: FactBase, L: Ledger>(
    alloc: Global,
    runner: &R,
    shapes: &Shapes,
    id: Id,
    command: &Command,
    facts: &mut F,
    steps: &mut Steps<L>,
) -> Result<Entry, NoMemory>
    requires formed { IsInForm command.now }
    requires shapes { shapes.now ≡ shapes_of (items_of (R.rules runner.now)) }
    requires finite { NoneReachesItself shapes.now }
    requires typed { AreTyped (R.rules runner.now) (F.rows facts.old) }
    ensures entry { IfOk result (λ entry. entry ≡ entry_of id (judged (R.rules runner.now) (F.rows facts.old) command.now)) }
    ensures rows { OnOk result (F.rows facts.new ≡ rows_behind (judged (R.rules runner.now) (F.rows facts.old) command.now) (F.rows facts.old)) }
    ensures typed { OnOk result (AreTyped (R.rules runner.now) (F.rows facts.new)) }
    ensures effects { IfOk result (λ entry. AreEffectsOf (R.rules runner.now) entry.effects) }
    ensures ticks { OnOk result (steps.new ≡ steps.old + command_ticks (R.rules runner.now) (F.rows facts.old) command.now) }
    ensures at_most { steps.new ≤ steps.old + command_ticks (R.rules runner.now) (F.rows facts.old) command.now }
    ensures later { steps.old ≤ steps.new }
{
    match call_of(alloc, runner.policy(), shapes, command)? {
        Some(call) => run_call(alloc, runner, id, &call, facts, steps),
        None => Ok(void(alloc, id)),
    }
}

/// The command at a place.
fn command_at<G: Graph>(graph: &G, place: usize) -> &Command
    requires place { place < length (G.commands graph.now) }
    ensures at { IsAt (G.commands graph.now) place result.now }
    ensures formed { IsInForm result.now }
{
    graph.at(place)
}

/// Runs the commands at these places, in their order, on from these facts.
fn run_places<R: Runner, G: Graph, F: FactBase, L: Ledger>(
    alloc: Global,
    runner: &R,
    shapes: &Shapes,
    graph: &G,
    places: &[usize],
    mut facts: F,
    steps: &mut Steps<L>,
) -> Result<Ran<F>, NoMemory>
    requires places { All (λ place. place < length (G.commands graph.now)) places.now }
    requires shapes { shapes.now ≡ shapes_of (items_of (R.rules runner.now)) }
    requires finite { NoneReachesItself shapes.now }
    requires typed { AreTyped (R.rules runner.now) (F.rows facts) }
    ensures runs { IfOk result (λ ran. IsRunFrom (R.rules runner.now) (F.rows facts) (picked (G.commands graph.now) places.now) (F.rows ran.facts) ran.entries.all steps.old steps.new) }
    ensures typed { IfOk result (λ ran. AreTyped (R.rules runner.now) (F.rows ran.facts)) }
    ensures effects { IfOk result (λ ran. All (λ entry. AreEffectsOf (R.rules runner.now) entry.effects) ran.entries.all) }
    ensures at_most { steps.new ≤ steps.old + (run_on (R.rules runner.now) (run_from (F.rows facts)) (picked (G.commands graph.now) places.now)).ticks }
    ensures later { steps.old ≤ steps.new }
{
    let mut entries = Entries::new(alloc);
    for place in places {
        let command = command_at(graph, *place);
        let id = graph.id_at(*place);
        let entry = run_command(alloc, runner, shapes, id, command, &mut facts, steps)?;
        entries.push(alloc, entry)?;
    }
    Ok(Ran { facts, entries })
}

/// Runs the braid of the tips' closure by the runner's policy, from no facts. The answer has the facts, and the entries in the order of the braid;
/// the counter rises by the blocks that were run. Each command is run once. Running out of memory is the only error; by then the counter may have
/// risen, and by no more than the ticks of the run.
pub fn run_all<R: Runner, G: Graph, F: FactBase, L: Ledger>(
    alloc: Global,
    runner: &R,
    graph: &G,
    tips: &[usize],
    steps: &mut Steps<L>,
) -> Result<Ran<F>, NoMemory>
    requires tips { All (λ place. place < length (G.commands graph.now)) tips.now }
    ensures runs { IfOk result (λ ran. IsRunUnder (R.rules runner.now) (G.commands graph.now) tips.now (F.rows ran.facts) ran.entries.all steps.old steps.new) }
    ensures typed { IfOk result (λ ran. AreTyped (R.rules runner.now) (F.rows ran.facts)) }
    ensures effects { IfOk result (λ ran. All (λ entry. AreEffectsOf (R.rules runner.now) entry.effects) ran.entries.all) }
    ensures at_most { (braid : List Command) → IsBraidUnder (G.commands graph.now) tips.now braid → steps.new ≤ steps.old + (run_of (R.rules runner.now) braid).ticks }
    ensures later { steps.old ≤ steps.new }
{
    let policy = runner.policy();
    structs_are_finite();
    let shapes = shapes(alloc, policy)?;
    let places = braid(alloc, graph, tips)?;
    let facts = no_facts::<R, F>(alloc, runner);
    let ran = run_places(
        alloc,
        runner,
        &shapes,
        graph,
        places.as_slice(),
        facts,
        steps,
    )?;
    Ok(ran)
}

/// No facts, which are of the types of every policy.
fn no_facts<R: Runner, F: FactBase>(alloc: Global, runner: &R) -> F
    ensures rows { F.rows result ≡ [] }
    ensures typed { AreTyped (R.rules runner.now) (F.rows result) }
{
    F::empty(alloc)
}

/// Runs what stands above the command at the base in the tips' closure, in the order of its braid, on from these facts. The counter rises by the blocks
/// that were run, two for each of those commands at most.
pub fn run_above<R: Runner, G: Graph, F: FactBase, L: Ledger>(
    alloc: Global,
    runner: &R,
    graph: &G,
    base: usize,
    tips: &[usize],
    facts: F,
    steps: &mut Steps<L>,
) -> Result<Ran<F>, NoMemory>
    requires base { base < length (G.commands graph.now) }
    requires tips { All (λ place. place < length (G.commands graph.now)) tips.now }
    requires typed { AreTyped (R.rules runner.now) (F.rows facts) }
    ensures runs { IfOk result (λ ran. (f : Command) → IsAt (G.commands graph.now) base f
        → IsRunAbove (R.rules runner.now) (G.commands graph.now) tips.now f (F.rows facts) (F.rows ran.facts) ran.entries.all steps.old steps.new) }
    ensures typed { IfOk result (λ ran. AreTyped (R.rules runner.now) (F.rows ran.facts)) }
    ensures effects { IfOk result (λ ran. All (λ entry. AreEffectsOf (R.rules runner.now) entry.effects) ran.entries.all) }
    ensures at_most { (f : Command) (n : ℕ) → IsAt (G.commands graph.now) base f → AreAbove (G.commands graph.now) tips.now f n → steps.new ≤ steps.old + 2 * n }
    ensures later { steps.old ≤ steps.new }
{
    let policy = runner.policy();
    structs_are_finite();
    let shapes = shapes(alloc, policy)?;
    let places = braid_above(alloc, graph, base, tips)?;
    let ran = run_places(
        alloc,
        runner,
        &shapes,
        graph,
        places.as_slice(),
        facts,
        steps,
    )?;
    Ok(ran)
}
