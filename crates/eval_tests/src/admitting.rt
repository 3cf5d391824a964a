// Each command is held out to what its script leaves, by itself.
ghost use Rattle.std.specs.Prelude.{◌≡◌, ◌<◌};

use crate::admissions::{Admissions, BEGUN, CLOSED, Candidate, FAULTED, FOREIGN, PLACED};
use crate::graphs::{Step, command_of};
use crate::loading::runner_of;
use crate::player::{DIGEST, Held, played};
use crate::refusals::policy_refusal;
use accept::{Admit, Reason, admit};
use base_bytes::{Id, NoMemory, Steps, Text};
use braid_run::State;
use command::{Graph, id_of};
use graph_set::ListGraph;
use language_tests::policies::PRIORITIES;
use outside::TagEnvelope;
use policy_eval::TreeRunner;
use script_texts::{CommandRefusal, command_reason};
use std::alloc::Global;
use std::marker::Brand;
use std::sync::ledger::{Blank, Ledger};
use std::test::*;

/// The place of the command of this id, and where none is held the id's first byte.
fn place(graph: &ListGraph, id: &Id) -> usize {
    match graph.place_of(id) {
        Some(place) => place,
        None => match id.as_slice().first() {
            Some(byte) => *byte as usize,
            None => 0,
        },
    }
}

fn with_place(alloc: Global, graph: &ListGraph, word: &str, id: &Id) -> Result<Text, NoMemory> {
    let mut text = String::new(alloc);
    text.push_str(word)?;
    let digits = place(graph, id).to_string(alloc)?;
    text.push_str(digits.as_str())?;
    Ok(Text::from_string(text))
}

fn reason_text(alloc: Global, graph: &ListGraph, reason: &Reason) -> Result<Text, NoMemory> {
    match reason {
        Reason::Collision { .. } => command_reason(alloc, &CommandRefusal::Collision),
        Reason::OtherInit => command_reason(alloc, &CommandRefusal::OtherInit),
        Reason::MissingParent(id) => with_place(alloc, graph, "missing parent ", id),
        Reason::WrongCut { .. } => command_reason(alloc, &CommandRefusal::WrongCut),
        Reason::BadEnvelope => command_reason(alloc, &CommandRefusal::BadEnvelope),
        Reason::Policy(why) => command_reason(alloc, &policy_refusal(*why)),
        Reason::ParallelFinalize(id) => with_place(alloc, graph, "parallel finalize ", id),
        Reason::Full => command_reason(alloc, &CommandRefusal::Full),
    }
}

fn answer_text(alloc: Global, graph: &ListGraph, answer: &Admit) -> Result<Text, NoMemory> {
    match answer {
        Admit::Added => Text::from_slice(alloc, "added"),
        Admit::Repeat => Text::from_slice(alloc, "repeat"),
        Admit::Refused(reason) => reason_text(alloc, graph, reason),
    }
}

/// The command, whether its tag is good, and what becomes of it.
fn parts(candidate: &Candidate) -> (Step, bool, &'static str) {
    match candidate {
        Candidate::Good(kind, author, name, fields, answer) => {
            (Step(*kind, *author, *name, *fields), true, *answer)
        }
        Candidate::Bad(kind, author, name, fields, answer) => {
            (Step(*kind, *author, *name, *fields), false, *answer)
        }
    }
}

fn answered<L: Ledger>(
    alloc: Global,
    runner: &TreeRunner,
    digest: &Id,
    state: &Held,
    step: &Step,
    good: bool,
    blank: Blank,
) -> Result<Text, NoMemory>
    requires name { blank.name ≡ L.name }
    requires parts { blank.parts ≡ L.parts }
    requires some { 0 < L.parts }
{
    let Some(command) = command_of(alloc, state.graph(), step, good)? else {
        return Text::from_slice(alloc, "no command");
    };
    let mut steps = Steps::<L>::start(blank);
    let answer = admit(
        alloc,
        runner,
        digest,
        state,
        &command,
        &TagEnvelope,
        &mut steps,
    )?;
    answer_text(alloc, state.graph(), &answer)
}

/// The number of the first candidate, from 1, that comes to something else than is written, and 0 where none does. All of them differ where the
/// script leaves no state.
pub fn difference(alloc: Global, admissions: &Admissions) -> Result<usize, NoMemory> {
    let Some(runner) = runner_of(alloc, admissions.document)? else {
        return Ok(1);
    };
    let author = Id::new([1; 32]);
    let lines = admissions.lines.as_bytes();
    let mut env = TagEnvelope;
    let found = played::<_, _, Brand>(alloc, &runner, &author, &mut env, lines, Blank::new(1))?;
    let Some((state, _)) = found else {
        return Ok(1);
    };
    let digest = Id::new(DIGEST);
    for i in 0..admissions.candidates.len() {
        let (step, good, want) = parts(&admissions.candidates[i]);
        let answer = answered::<Brand>(
            alloc,
            &runner,
            &digest,
            &state,
            &step,
            good,
            Blank::new(1),
        )?;
        if answer.as_str() != want {
            return Ok(i + 1);
        }
    }
    Ok(0)
}

/// A state that holds nothing, of a graph whose id is that of the step's command.
fn begun(alloc: Global, step: &Step, good: bool) -> Result<Held, NoMemory> {
    let mut state: Held = State::empty(alloc)?;
    if let Some(command) = command_of(alloc, state.graph(), step, good)? {
        state.name_graph(id_of(&command));
    }
    Ok(state)
}

/// The same of candidates each of which is held out where nothing is held, and the graph's id is its own.
fn begun_difference(
    alloc: Global,
    digest: &Id,
    candidates: &[Candidate],
) -> Result<usize, NoMemory> {
    let Some(runner) = runner_of(alloc, PRIORITIES)? else {
        return Ok(1);
    };
    for i in 0..candidates.len() {
        let (step, good, want) = parts(&candidates[i]);
        let state = begun(alloc, &step, good)?;
        let answer = answered::<Brand>(alloc, &runner, digest, &state, &step, good, Blank::new(1))?;
        if answer.as_str() != want {
            return Ok(i + 1);
        }
    }
    Ok(0)
}

#[test]
fn commands_are_taken_or_refused_as_written(rt: HostRuntime) -> Result<(), Fail> {
    for admissions in [&PLACED, &CLOSED, &FAULTED] {
        assert!(rt;
            difference(rt.alloc(), admissions)? == 0,
            "{}",
            admissions.lines
        );
    }
    Ok(())
}

#[test]
fn inits_are_taken_or_refused_as_written(rt: HostRuntime) -> Result<(), Fail> {
    assert!(rt; begun_difference(rt.alloc(), &Id::new(DIGEST), BEGUN)? == 0);
    assert!(rt; begun_difference(rt.alloc(), &Id::new([8; 32]), FOREIGN)? == 0);
    Ok(())
}
