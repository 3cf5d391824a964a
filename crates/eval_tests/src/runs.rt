// Graphs of two documents, run in the order of their braids: the facts, the effects, and what each command comes to.
ghost use Rattle.std.specs.Prelude.{◌≡◌, ◌<◌, IfOk};
ghost use Rattle.fact_store.specs.Stored.{rows_of};
ghost use Rattle.policy_meaning.specs.Typed.{AreTyped};

use crate::graphs::Field::{Ident, Int, Str, Variant};
use crate::graphs::Kind::{Basic, Init};
use crate::graphs::{Step, graph_of};
use crate::loading::runner_of;
use crate::outcomes::OUTCOMES;
use base_bytes::{NoMemory, Steps, Text};
use braid_run::laws::heads_are_places;
use braid_run::{Entry, Outcome, Ran, run_all};
use command::Graph;
use fact_store::Facts;
use graph_set::ListGraph;
use language_tests::policies::{PRIORITIES, TEAM};
use policy_eval::TreeRunner;
use policy_meaning::Runner;
use state_texts::{effects_text, facts_text};
use std::alloc::Global;
use std::marker::Brand;
use std::sync::ledger::{Blank, Ledger};
use std::test::*;

pub struct Run {
    pub title: &'static str,
    pub document: &'static str,
    pub steps: &'static [Step],
    /// A letter for each entry, in the order of the braid: pass, recalled, void.
    pub outcomes: &'static str,
    pub facts: &'static str,
    pub effects: &'static str,
}

const BEGIN: Step = Step(Init, 1, "Begin", &[]);

const RUNS: [Run; 5] = [
    Run {
        title: "the higher priority runs first, whatever was stored first",
        document: PRIORITIES,
        steps: &[
            BEGIN,
            Step(Basic(1, 0), 1, "Low", &[Int(1)]),
            Step(Basic(10, 0), 2, "High", &[Int(2)]),
        ],
        outcomes: "ppp",
        facts: "facts a: 3\n  Count[]=>{n: 2}\n  Log[at: 1]=>{v: 2}\n  Log[at: 2]=>{v: 1}\n",
        effects: "effects a: 2\n  Did { v: 2 }\n  Did { v: 1 }\n",
    },
    Run {
        title: "the braid is chosen from the back",
        document: PRIORITIES,
        steps: &[
            BEGIN,
            Step(Basic(1, 0), 1, "Low", &[Int(1)]),
            Step(Basic(10, 1), 1, "High", &[Int(2)]),
            Step(Basic(5, 0), 2, "Mid", &[Int(3)]),
        ],
        outcomes: "pppp",
        facts: "facts a: 4\n  Count[]=>{n: 3}\n  Log[at: 1]=>{v: 1}\n  Log[at: 2]=>{v: 2}\n  Log[at: 3]=>{v: 3}\n",
        effects: "effects a: 3\n  Did { v: 1 }\n  Did { v: 2 }\n  Did { v: 3 }\n",
    },
    Run {
        title: "a note of one who was removed is recalled",
        document: TEAM,
        steps: &[
            Step(Init, 1, "CreateTeam", &[]),
            Step(Basic(20, 0), 1, "AddUser", &[Ident(2), Variant(1)]),
            Step(
                Basic(10, 1),
                2,
                "WriteNote",
                &[Str("plan"), Int(1), Str("ship")],
            ),
            Step(Basic(30, 1), 1, "RemoveUser", &[Ident(2)]),
        ],
        outcomes: "pppr",
        facts: "facts a: 1\n  User[user: id:0101010101010101010101010101010101010101010101010101010101010101]=>{role: Role::Owner}\n",
        effects: "effects a: 4
  UserAdded { user: id:0101010101010101010101010101010101010101010101010101010101010101, role: Role::Owner }
  UserAdded { user: id:0202020202020202020202020202020202020202020202020202020202020202, role: Role::Member }
  UserRemoved { user: id:0202020202020202020202020202020202020202020202020202020202020202 }
  NoteLost { topic: \"plan\", n: 1 } recalled
",
    },
    Run {
        title: "of two claims of one slot the later is recalled",
        document: PRIORITIES,
        steps: &[
            BEGIN,
            Step(Basic(5, 0), 1, "Claim", &[Int(1), Int(10)]),
            Step(Basic(5, 0), 2, "Claim", &[Int(1), Int(10)]),
        ],
        outcomes: "ppr",
        facts: "facts a: 2\n  Count[]=>{n: 0}\n  Slot[s: 1]=>{v: 10}\n",
        effects: "effects a: 2\n  Did { v: 10 }\n  Lost { v: 10 } recalled\n",
    },
    Run {
        title: "of two that create one row the later is void",
        document: PRIORITIES,
        steps: &[
            BEGIN,
            Step(Basic(0, 0), 1, "Say", &[Str("k"), Int(1), Int(5)]),
            Step(Basic(0, 0), 2, "Say", &[Str("k"), Int(1), Int(5)]),
        ],
        outcomes: "ppv",
        facts: "facts a: 2\n  Count[]=>{n: 0}\n  Word[a: \"k\", b: 1]=>{c: 5}\n",
        effects: "effects a: 0\n",
    },
];

fn ran<L: Ledger>(
    alloc: Global,
    runner: &TreeRunner,
    graph: &ListGraph,
    blank: Blank,
) -> Result<Ran<Facts>, NoMemory>
    requires name { blank.name ≡ L.name }
    requires parts { blank.parts ≡ L.parts }
    requires some { 0 < L.parts }
    ensures typed { IfOk result (λ ran. AreTyped runner.now (rows_of ran.facts.stored.entries)) }
{
    let mut steps = Steps::<L>::start(blank);
    let heads = graph.heads(alloc)?;
    heads_are_places();
    run_all(alloc, runner, graph, heads.as_slice(), &mut steps)
}

fn letter(outcome: Outcome) -> char {
    match outcome {
        Outcome::Pass => 'p',
        Outcome::Recalled => 'r',
        Outcome::Void => 'v',
    }
}

fn letters(alloc: Global, entries: &[Entry]) -> Result<String, NoMemory> {
    let mut text = String::new(alloc);
    for entry in entries {
        text.push(letter(entry.outcome))?;
    }
    Ok(text)
}

/// What a run differs in from what is written; an empty text where in nothing.
fn difference(alloc: Global, run: &Run) -> Result<&'static str, NoMemory> {
    let Some(runner) = runner_of(alloc, run.document)? else {
        return Ok("no policy");
    };
    let Some(graph) = graph_of(alloc, run.steps)? else {
        return Ok("no graph");
    };
    let ran = ran::<Brand>(alloc, &runner, &graph, Blank::new(1))?;
    let name = Text::from_slice(alloc, "a")?;
    if letters(alloc, ran.entries.as_slice())?.as_str() != run.outcomes {
        return Ok("outcomes");
    }
    let facts = facts_text(alloc, runner.policy(), &name, &ran.facts)?;
    if facts.as_slice() != run.facts.as_bytes() {
        return Ok("facts");
    }
    let items = runner.policy().items();
    let effects = effects_text(alloc, items, &name, ran.entries.as_slice())?;
    if effects.as_slice() != run.effects.as_bytes() {
        return Ok("effects");
    }
    Ok("")
}

#[test]
fn runs_come_to_what_is_written(rt: HostRuntime) -> Result<(), Fail> {
    for run in &RUNS {
        assert_eq!(rt; difference(rt.alloc(), run)?, "", "{}", run.title);
    }
    for run in &OUTCOMES {
        assert_eq!(rt; difference(rt.alloc(), run)?, "", "{}", run.title);
    }
    Ok(())
}
