// Sessions of two replicas, call by call.
ghost use Rattle.std.specs.Prelude.{◌≡◌, ◌<◌};

use crate::calls::Call::{Act, Answer, Ask, Init, Join, Next, Take};
use crate::calls::Value::{Author, Int, Role, Str};
use crate::calls::{Line, lines_met};
use crate::parties::{Party, party};
use crate::said::Said::{Done, Joined, Message, Published, Taken};
use base_bytes::{NoMemory, Steps, Text};
use language_tests::policies::{PRIORITIES, TEAM};
use outside::TagEnvelope;
use policy_meaning::Runner;
use std::alloc::Global;
use std::marker::Brand;
use std::sync::ledger::{Blank, Ledger};
use std::test::*;

struct Session {
    title: &'static str,
    document: &'static str,
    lines: &'static [Line],
}

const LOW: &[crate::calls::Value] = &[Int(1)];

/// Replica 0 begins, and 1 joins and takes its first command: messages 1 and 2.
const SESSIONS: [Session; 4] = [
    Session {
        title: "a note is valid at its place, though not over the facts of now",
        document: TEAM,
        lines: &[
            Line(0, Init("create_team", &[]), Published(1, 0, 0, 1), 1),
            Line(
                0,
                Act(1, "add_user", &[Author("b"), Role("Member")]),
                Published(1, 0, 1, 1),
                2,
            ),
            Line(1, Join(0), Joined, 0),
            Line(1, Ask, Message, 0),
            Line(0, Answer(1), Message, 2),
            Line(1, Take(2), Taken(2, 0, 0, "", 0, 2), 2),
            Line(
                1,
                Act(1, "write_note", &[Str("plan"), Int(1), Str("ship")]),
                Published(1, 0, 2, 1),
                3,
            ),
            Line(
                0,
                Act(1, "remove_user", &[Author("b")]),
                Published(1, 0, 2, 1),
                3,
            ),
            Line(1, Ask, Message, 3),
            Line(0, Answer(3), Message, 3),
            Line(1, Take(4), Taken(1, 0, 0, "", 2, 2), 4),
            Line(0, Ask, Message, 3),
            Line(1, Answer(5), Message, 4),
            Line(0, Take(6), Taken(1, 0, 0, "", 3, 1), 4),
        ],
    },
    Session {
        title: "a finalize beside another one is refused, and what stands behind it",
        document: PRIORITIES,
        lines: &[
            Line(0, Init("begin", &[]), Published(1, 0, 0, 1), 1),
            Line(1, Join(0), Joined, 0),
            Line(1, Ask, Message, 0),
            Line(0, Answer(1), Message, 1),
            Line(1, Take(2), Taken(1, 0, 0, "", 0, 1), 1),
            Line(0, Act(1, "close", &[]), Published(1, 0, 1, 1), 2),
            Line(1, Act(1, "close", &[]), Published(1, 0, 1, 1), 2),
            Line(1, Act(1, "low", LOW), Published(1, 0, 2, 1), 3),
            Line(0, Ask, Message, 2),
            Line(1, Answer(3), Message, 3),
            Line(0, Take(4), Taken(0, 0, 2, "missing parent", 2, 0), 2),
        ],
    },
    Session {
        title: "a message may be taken late, and twice",
        document: PRIORITIES,
        lines: &[
            Line(0, Init("begin", &[]), Published(1, 0, 0, 1), 1),
            Line(1, Join(0), Joined, 0),
            Line(1, Ask, Message, 0),
            Line(0, Answer(1), Message, 1),
            Line(1, Take(2), Taken(1, 0, 0, "", 0, 1), 1),
            Line(0, Act(1, "low", LOW), Published(1, 0, 1, 1), 2),
            Line(1, Ask, Message, 1),
            Line(0, Answer(3), Message, 2),
            Line(0, Act(1, "low", &[Int(2)]), Published(1, 0, 2, 1), 3),
            Line(1, Ask, Message, 1),
            Line(0, Answer(5), Message, 3),
            Line(1, Take(6), Taken(2, 0, 0, "", 1, 2), 3),
            Line(1, Take(4), Taken(0, 1, 0, "", 3, 0), 3),
            Line(1, Take(6), Taken(0, 2, 0, "", 3, 0), 3),
        ],
    },
    Session {
        title: "a long list is sent in parts, and the responder may grow between",
        document: PRIORITIES,
        lines: &[
            Line(0, Init("begin", &[]), Published(1, 0, 0, 1), 1),
            Line(1, Join(0), Joined, 0),
            Line(1, Ask, Message, 0),
            Line(0, Answer(1), Message, 1),
            Line(1, Take(2), Taken(1, 0, 0, "", 0, 1), 1),
            Line(0, Act(65, "low", LOW), Published(1, 0, 65, 1), 66),
            Line(1, Ask, Message, 1),
            Line(0, Answer(3), Message, 66),
            Line(1, Next(4), Message, 1),
            Line(0, Answer(5), Message, 66),
            Line(0, Act(1, "low", LOW), Published(1, 0, 66, 1), 67),
            Line(0, Answer(5), Message, 67),
            Line(1, Take(6), Taken(0, 0, 1, "missing parent", 1, 0), 1),
            Line(1, Take(4), Taken(64, 0, 0, "", 1, 64), 65),
            Line(1, Take(6), Taken(1, 0, 0, "", 65, 1), 66),
            Line(1, Next(6), Done, 66),
            Line(1, Take(7), Taken(1, 1, 0, "", 66, 1), 67),
        ],
    },
];

fn both(alloc: Global, document: &str) -> Result<Option<Vec<Party>>, NoMemory> {
    let Some(one) = party(alloc, document, "a")? else {
        return Ok(None);
    };
    let Some(other) = party(alloc, document, "b")? else {
        return Ok(None);
    };
    let mut all = Vec::new(alloc);
    all.push(one)?;
    all.push(other)?;
    Ok(Some(all))
}

/// How many lines of a session are met; one more than there are where there is no policy.
fn met_by<L: Ledger>(alloc: Global, session: &Session, blank: Blank) -> Result<usize, NoMemory>
    requires name { blank.name ≡ L.name }
    requires parts { blank.parts ≡ L.parts }
    requires some { 0 < L.parts }
{
    let Some(mut parties) = both(alloc, session.document)? else {
        return Ok(session.lines.len().saturating_add(1));
    };
    let mut steps = Steps::<L>::start(blank);
    lines_met(
        alloc,
        parties.as_mut_slice(),
        session.lines,
        &mut TagEnvelope,
        &mut steps,
    )
}

fn met(alloc: Global, session: &Session) -> Result<usize, NoMemory> {
    met_by::<Brand>(alloc, session, Blank::new(1))
}

#[test]
fn sessions_go_as_written(rt: HostRuntime) -> Result<(), Fail> {
    for session in &SESSIONS {
        assert_eq!(rt;
            met(rt.alloc(), session)?,
            session.lines.len(),
            "{}",
            session.title
        );
    }
    Ok(())
}
