// Scripts of one replica: its actions are prepared and applied one after another, and each line prints its text.
ghost use Rattle.std.specs.Prelude.{◌≡◌, ◌<◌, true, None, OnOk};
ghost use Rattle.policy_meaning.specs.Typed.{AreTyped};

use crate::refusals::line_refusal;
use base_bytes::{Arg, Bytes, Id, NoMemory, Steps, Text};
use braid_run::State;
use command::Graph;
use fact_store::Facts;
use graph_set::ListGraph;
use outside::Envelope;
use policy_meaning::Runner;
use script::{Line, read_script};
use script_texts::{LineRefusal, published_text, refused_text};
use state_texts::{effects_text, facts_text, graph_text};
use std::alloc::Global;
use std::sync::ledger::{Blank, Ledger};
use transaction::{ActFault, Prepared, apply, prepare};

pub type Held = State<ListGraph, Facts>;

/// The policy's digest in all these tests.
pub const DIGEST: [u8; 32] = [9; 32];

fn verb(first: bool) -> &'static str {
    if first { "init" } else { "act" }
}

fn prepared_text(
    alloc: Global,
    verb: &str,
    name: &Text,
    cut: usize,
    prepared: &Prepared<Facts>,
) -> Result<Bytes, NoMemory> {
    let entries = prepared.entries.len();
    published_text(
        alloc,
        verb,
        &[name.as_str()],
        entries,
        prepared.merges,
        cut,
        entries,
    )
}

fn fault_text(alloc: Global, verb: &str, name: &Text, fault: ActFault) -> Result<Bytes, NoMemory> {
    match line_refusal(fault)? {
        Some(why) => refused_text(alloc, verb, &[name.as_str()], &why),
        None => Bytes::from_slice(alloc, b"seal fault\n"),
    }
}

/// The action, with `first` that of an `init`, is prepared and applied.
fn action_text<R: Runner, E: Envelope, L: Ledger>(
    alloc: Global,
    runner: &R,
    author: &Id,
    state: &mut Held,
    env: &mut E,
    steps: &mut Steps<L>,
    name: &Text,
    action: &Text,
    args: &[Arg],
    first: bool,
) -> Result<Bytes, NoMemory>
    requires typed { AreTyped (R.rules runner.now) state.old.held.rows }
    requires first { first ≡ true → state.old.held.graph_id ≡ None }
    ensures typed { OnOk result (AreTyped (R.rules runner.now) state.new.held.rows) }
{
    let cut = state.entries().len();
    let digest = Id::new(DIGEST);
    match prepare(
        alloc, runner, &digest, state, author, action, args, first, env, steps,
    ) {
        Ok(prepared) => {
            let text = prepared_text(alloc, verb(first), name, cut, &prepared)?;
            apply(state, prepared);
            Ok(text)
        }
        Err(fault) => fault_text(alloc, verb(first), name, fault),
    }
}

fn init_text<R: Runner, E: Envelope, L: Ledger>(
    alloc: Global,
    runner: &R,
    author: &Id,
    state: &mut Held,
    env: &mut E,
    steps: &mut Steps<L>,
    name: &Text,
    action: &Text,
    args: &[Arg],
) -> Result<Bytes, NoMemory>
    requires typed { AreTyped (R.rules runner.now) state.old.held.rows }
    ensures typed { OnOk result (AreTyped (R.rules runner.now) state.new.held.rows) }
{
    if state.graph_id().is_some() {
        return refused_text(alloc, "init", &[name.as_str()], &LineRefusal::HasGraph);
    }
    action_text(
        alloc, runner, author, state, env, steps, name, action, args, true,
    )
}

fn line_text<R: Runner, E: Envelope, L: Ledger>(
    alloc: Global,
    runner: &R,
    author: &Id,
    state: &mut Held,
    env: &mut E,
    steps: &mut Steps<L>,
    line: &Line,
) -> Result<Bytes, NoMemory>
    requires typed { AreTyped (R.rules runner.now) state.old.held.rows }
    ensures typed { OnOk result (AreTyped (R.rules runner.now) state.new.held.rows) }
{
    match line {
        Line::Init(name, action, args) => {
            let args = args.as_slice();
            init_text(alloc, runner, author, state, env, steps, name, action, args)
        }
        Line::Act(name, action, args) => {
            let args = args.as_slice();
            action_text(
                alloc, runner, author, state, env, steps, name, action, args, false,
            )
        }
        Line::Facts(name) => facts_text(alloc, runner.policy(), name, state.facts()),
        Line::Effects(name) => {
            let items = runner.policy().items();
            effects_text(alloc, items, name, state.entries().as_slice())
        }
        Line::Graph(name) => graph_text(alloc, name, state.graph()),
        _ => Ok(Bytes::new(alloc)),
    }
}

fn lines_text<R: Runner, E: Envelope, L: Ledger>(
    alloc: Global,
    runner: &R,
    author: &Id,
    state: &mut Held,
    env: &mut E,
    steps: &mut Steps<L>,
    lines: &[Line],
) -> Result<Bytes, NoMemory>
    requires typed { AreTyped (R.rules runner.now) state.old.held.rows }
{
    let mut text = Bytes::new(alloc);
    for line in lines {
        let printed = line_text(alloc, runner, author, state, env, steps, line)?;
        text.extend(alloc, printed.as_slice())?;
    }
    Ok(text)
}

/// What a script prints that goes on from a state. None where it is no script.
pub fn played_on<R: Runner, E: Envelope, L: Ledger>(
    alloc: Global,
    runner: &R,
    author: &Id,
    state: &mut Held,
    env: &mut E,
    script: &[u8],
    blank: Blank,
) -> Result<Option<Bytes>, NoMemory>
    requires name { blank.name ≡ L.name }
    requires parts { blank.parts ≡ L.parts }
    requires some { 0 < L.parts }
    requires typed { AreTyped (R.rules runner.now) state.old.held.rows }
{
    let Ok(lines) = read_script(alloc, script) else {
        return Ok(None);
    };
    let mut steps = Steps::<L>::start(blank);
    let text = lines_text(
        alloc,
        runner,
        author,
        state,
        env,
        &mut steps,
        lines.as_slice(),
    )?;
    Ok(Some(text))
}

/// What a replica holds after a script, and what the script prints. None where it is no script.
pub fn played<R: Runner, E: Envelope, L: Ledger>(
    alloc: Global,
    runner: &R,
    author: &Id,
    env: &mut E,
    script: &[u8],
    blank: Blank,
) -> Result<Option<(Held, Bytes)>, NoMemory>
    requires name { blank.name ≡ L.name }
    requires parts { blank.parts ≡ L.parts }
    requires some { 0 < L.parts }
{
    let mut state: Held = State::empty(alloc)?;
    let text = played_on::<R, E, L>(alloc, runner, author, &mut state, env, script, blank)?;
    match text {
        Some(text) => Ok(Some((state, text))),
        None => Ok(None),
    }
}
