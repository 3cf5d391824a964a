// What becomes of commands that are held out to a state: each reason against one, and two causes at once for each pair of neighbours.
use crate::admissions::Candidate::{Bad, Good};
use crate::documents::FAULTS;
use crate::graphs::Field::{Ident, Int, Other, Str};
use crate::graphs::Kind::{Basic, Finalize, Init, Merge};
use crate::graphs::{Field, Kind};
use language_tests::policies::{PRIORITIES, TEAM};

/// A command with a good tag or a bad one, by the parts of a `Step`, and what becomes of it. An id in the answer is the place of its command, or the
/// byte that it repeats.
pub enum Candidate {
    Good(Kind, u8, &'static str, &'static [Field], &'static str),
    Bad(Kind, u8, &'static str, &'static [Field], &'static str),
}

const CLAIM: &[Field] = &[Int(1), Int(5)];

const SAID: &[Field] = &[Str("k"), Int(1), Int(6)];

const SEVEN_BYTES: &[Field] = &[Other(b"seven b")];

pub struct Admissions {
    pub document: &'static str,
    /// The script that leaves the state.
    pub lines: &'static str,
    pub candidates: &'static [Candidate],
}

pub const PLACED: Admissions = Admissions {
    document: PRIORITIES,
    lines: "replica a\ninit a begin()\nact a claim(1, 10)\nact a say(\"k\", 1, 5)\n",
    candidates: &[
        Good(Basic(10, 0), 2, "High", &[Int(2)], "added"),
        Good(Init, 1, "Begin", &[], "repeat"),
        Good(Basic(5, 0), 1, "Claim", &[Int(1), Int(10)], "repeat"),
        Good(Init, 2, "Begin", &[], "other init"),
        Bad(Init, 2, "Begin", &[], "other init"),
        Good(Basic(10, 99), 2, "High", &[Int(2)], "missing parent 99"),
        Bad(Basic(10, 99), 2, "High", &[Int(2)], "missing parent 99"),
        Good(Merge(99, 98), 0, "", &[], "missing parent 98"),
        Good(Merge(255, 0), 0, "", &[], "missing parent 255"),
        Good(Merge(1, 0), 0, "", &[], "added"),
        Bad(Basic(10, 0), 2, "High", &[Int(2)], "bad envelope"),
        Bad(Basic(10, 0), 2, "Nope", &[Int(2)], "bad envelope"),
        Good(Basic(10, 0), 2, "Nope", &[Int(2)], "unknown command"),
        Good(Basic(11, 0), 2, "High", &[Int(2)], "wrong kind"),
        Good(Finalize(0), 2, "High", &[Int(2)], "wrong kind"),
        Good(Basic(0, 0), 2, "Close", &[], "wrong kind"),
        Good(Basic(0, 0), 2, "Begin", &[], "wrong kind"),
        Good(Basic(11, 0), 2, "High", SEVEN_BYTES, "wrong kind"),
        Good(Basic(10, 0), 2, "High", SEVEN_BYTES, "payload"),
        Good(Basic(5, 1), 2, "Claim", &[Int(1)], "payload"),
        Good(Basic(5, 1), 2, "Claim", CLAIM, "check"),
        Good(Basic(5, 0), 2, "Claim", CLAIM, "added"),
        Good(Basic(0, 2), 2, "Say", SAID, "fault exists"),
        Good(Basic(0, 1), 2, "Say", SAID, "added"),
        Good(Finalize(2), 2, "Close", &[], "added"),
    ],
};

/// Two epochs are closed one behind the other, by an owner who made a second owner before.
pub const CLOSED: Admissions = Admissions {
    document: TEAM,
    lines: "replica a
init a create_team()
act a add_user(id:0202020202020202020202020202020202020202020202020202020202020202, Role::Owner)
act a close_epoch()
act a close_epoch()
",
    candidates: &[
        Good(Finalize(3), 1, "CloseEpoch", &[], "added"),
        Good(Finalize(2), 1, "CloseEpoch", &[], "repeat"),
        Good(Finalize(0), 2, "CloseEpoch", &[], "check"),
        Good(Finalize(0), 1, "CloseEpoch", &[], "parallel finalize 2"),
        Good(Finalize(1), 2, "CloseEpoch", &[], "parallel finalize 2"),
        Good(Finalize(2), 2, "CloseEpoch", &[], "parallel finalize 3"),
        Good(Basic(30, 1), 2, "RemoveUser", &[Ident(1)], "added"),
        Good(Basic(30, 0), 2, "RemoveUser", &[Ident(1)], "check"),
    ],
};

/// Each fault of a policy block.
pub const FAULTED: Admissions = Admissions {
    document: FAULTS,
    lines: "replica a\ninit a start_put(1)\n",
    candidates: &[
        Good(Basic(0, 1), 2, "Find", &[Int(9)], "fault unwrap"),
        Good(Basic(0, 1), 2, "Put", &[Int(1), Int(3)], "fault exists"),
        Good(Basic(0, 0), 2, "Put", &[Int(1), Int(3)], "added"),
        Good(Basic(0, 1), 2, "Put", &[Int(0), Int(3)], "check"),
        Good(Basic(0, 1), 2, "Remove", &[Int(9)], "fault missing"),
        Good(Basic(0, 1), 2, "Change", &[Int(9), Int(1)], "fault missing"),
        Good(Basic(0, 1), 2, "Change", &[Int(1), Int(2)], "fault differs"),
        Good(Basic(0, 0), 2, "Change", &[Int(1), Int(1)], "fault missing"),
        Good(Basic(0, 1), 2, "Change", &[Int(1), Int(1)], "added"),
        Good(Basic(0, 1), 2, "Need", &[Int(9)], "check"),
        Good(Basic(0, 1), 2, "Spin", &[], "fault turns"),
    ],
};

/// Inits that are held out where nothing is held but the graph's id, which is theirs.
pub const BEGUN: &[Candidate] = &[
    Good(Init, 1, "Begin", &[], "added"),
    Bad(Init, 1, "Begin", &[], "bad envelope"),
    Bad(Init, 1, "Nope", &[], "bad envelope"),
    Good(Init, 1, "Nope", &[], "unknown command"),
    Good(Init, 1, "High", &[Int(1)], "wrong kind"),
    Good(Init, 1, "Close", &[], "wrong kind"),
    Good(Init, 1, "High", &[], "wrong kind"),
    Good(Init, 1, "Begin", SEVEN_BYTES, "payload"),
    Good(Basic(10, 7), 1, "High", &[Int(1)], "missing parent 7"),
];

/// The same under a policy of another digest.
pub const FOREIGN: &[Candidate] = &[
    Good(Init, 1, "Begin", &[], "other init"),
    Bad(Init, 1, "Nope", &[], "other init"),
    Good(Basic(10, 7), 1, "High", &[Int(1)], "missing parent 7"),
];
