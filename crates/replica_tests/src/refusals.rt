// What each call refuses, and what stands after it.
ghost use Rattle.std.specs.Prelude.{◌≡◌, ◌<◌};

use crate::calls::Call::{Act, Answer, Ask, Init, Join, Made, Next, Restart, Take};
use crate::calls::Value::{Int, Str};
use crate::calls::{Line, act, lines_met};
use crate::parties::{Party, party};
use crate::said::Said;
use crate::said::Said::{Done, Holds, Joined, Message, Published, Refused, Taken};
use base_bytes::{NoMemory, Steps};
use command::Graph;
use language_tests::policies::PRIORITIES;
use outside::{ListEnvelope, TagEnvelope};
use std::alloc::Global;
use std::marker::Brand;
use std::sync::ledger::{Blank, Ledger};
use std::test::*;

/// Replicas 0 and 1 come to one graph, and 2 has another one.
const REFUSALS: &[Line] = &[
    Line(0, Ask, Refused("no graph"), 0),
    Line(
        0,
        Act(1, "low", &[Int(1)]),
        Refused("no graph of an action"),
        0,
    ),
    Line(0, Init("nope", &[]), Refused("unknown action"), 0),
    Line(0, Init("begin", &[Int(1)]), Refused("arguments"), 0),
    Line(
        0,
        Init("low", &[Int(1)]),
        Refused("command of wrong kind"),
        0,
    ),
    Line(0, Init("begin", &[]), Published(1, 0, 0, 1), 1),
    Line(0, Init("begin", &[]), Refused("has graph"), 1),
    Line(0, Join(0), Refused("has graph"), 1),
    Line(1, Made(&[1]), Message, 0),
    Line(1, Answer(1), Refused("malformed"), 0),
    Line(1, Take(1), Refused("malformed"), 0),
    Line(1, Next(1), Refused("malformed"), 0),
    Line(0, Ask, Message, 1),
    Line(1, Answer(2), Refused("no graph"), 0),
    Line(0, Answer(2), Message, 1),
    Line(1, Take(3), Refused("no graph"), 0),
    Line(1, Next(3), Refused("no graph"), 0),
    Line(0, Answer(3), Refused("malformed"), 1),
    Line(0, Take(2), Refused("malformed"), 1),
    Line(2, Init("begin", &[]), Published(1, 0, 0, 1), 1),
    Line(2, Answer(2), Refused("other graph"), 1),
    Line(2, Take(3), Refused("other graph"), 1),
    Line(2, Next(3), Refused("other graph"), 1),
    Line(1, Join(0), Joined, 0),
    Line(1, Join(0), Refused("has graph"), 0),
    Line(1, Init("begin", &[]), Refused("has graph"), 0),
    Line(1, Take(3), Taken(0, 0, 0, "", 0, 0), 0),
    Line(1, Ask, Message, 0),
    Line(0, Answer(4), Message, 1),
    Line(1, Next(5), Done, 0),
    Line(1, Take(5), Taken(1, 0, 0, "", 0, 1), 1),
    Line(1, Restart, Holds(1), 1),
    Line(0, Act(1, "nope", &[]), Refused("unknown action"), 1),
    Line(0, Act(1, "low", &[]), Refused("arguments"), 1),
    Line(0, Act(1, "low", &[Str("one")]), Refused("arguments"), 1),
    Line(0, Act(1, "probe", &[Int(1)]), Refused("fault unwrap"), 1),
    Line(0, Act(1, "free", &[Int(1)]), Refused("command check"), 1),
    Line(0, Act(1, "begin", &[]), Refused("command of wrong kind"), 1),
    Line(
        0,
        Act(1, "say", &[Str(""), Int(0), Int(2)]),
        Published(1, 0, 1, 1),
        2,
    ),
    Line(0, Act(1, "probe", &[Int(1)]), Refused("check"), 2),
    Line(
        0,
        Act(1, "say", &[Str(""), Int(0), Int(3)]),
        Refused("command fault"),
        2,
    ),
    Line(0, Restart, Holds(2), 2),
];

fn three(alloc: Global) -> Result<Vec<Party>, NoMemory> {
    let mut all = Vec::new(alloc);
    for name in ["a", "b", "c"] {
        if let Some(one) = party(alloc, PRIORITIES, name)? {
            all.push(one)?;
        }
    }
    Ok(all)
}

fn met_by<L: Ledger>(alloc: Global, blank: Blank) -> Result<usize, NoMemory>
    requires name { blank.name ≡ L.name }
    requires parts { blank.parts ≡ L.parts }
    requires some { 0 < L.parts }
{
    let mut parties = three(alloc)?;
    let mut steps = Steps::<L>::start(blank);
    lines_met(
        alloc,
        parties.as_mut_slice(),
        REFUSALS,
        &mut TagEnvelope,
        &mut steps,
    )
}

fn met(alloc: Global) -> Result<usize, NoMemory> {
    met_by::<Brand>(alloc, Blank::new(1))
}

#[test]
fn each_call_refuses_as_written(rt: HostRuntime) -> Result<(), Fail> {
    assert_eq!(rt; met(rt.alloc())?, REFUSALS.len());
    Ok(())
}

/// A seal that fails: what is said, and what is held behind it.
fn unsealed_by<L: Ledger>(alloc: Global, blank: Blank) -> Result<(Said, usize), NoMemory>
    requires name { blank.name ≡ L.name }
    requires parts { blank.parts ≡ L.parts }
    requires some { 0 < L.parts }
{
    let Some(mut party) = party(alloc, PRIORITIES, "a")? else {
        return Ok((Done, 0));
    };
    let mut steps = Steps::<L>::start(blank);
    let mut failing = Vec::new(alloc);
    failing.push(2)?;
    let mut env = ListEnvelope::new(alloc, failing);
    act(alloc, &mut party, true, "begin", &[], &mut env, &mut steps)?;
    let said = act(
        alloc,
        &mut party,
        false,
        "low",
        &[Int(1)],
        &mut env,
        &mut steps,
    )?;
    Ok((said, party.state().graph().len()))
}

fn unsealed(alloc: Global) -> Result<(Said, usize), NoMemory> {
    unsealed_by::<Brand>(alloc, Blank::new(1))
}

#[test]
fn a_failed_seal_changes_nothing(rt: HostRuntime) -> Result<(), Fail> {
    let (said, held) = unsealed(rt.alloc())?;
    assert!(rt; said == Refused("seal"));
    assert!(rt; held == 1);
    Ok(())
}
