// The journal of the first example: cut short, with another byte, under another policy, and on a disk that fails.
use crate::tests::rows::{ACT, FACTS, INIT, OTHER_LAYOUT, POLICY, REPLICA, SCRIPT};

/// A run whose first disk holds a front of that journal, once for each length from the first one up to the last, which is left out. The byte at the place is
/// 7 there, and the call of the disk with this number, from 1, fails.
#[derive(Clone, Copy)]
pub struct Opened {
    pub name: &'static str,
    pub from: usize,
    pub to: usize,
    pub seven: usize,
    pub failing_call: u64,
    pub policy: &'static str,
    pub script: &'static str,
    pub status: u8,
    pub text: &'static [&'static str],
}

/// How many bytes the journal has.
pub const WHOLE: usize = 297;

/// The place of each gate, and what stands there.
pub const GATES: [(usize, u8); 4] = [(0, 1), (38, 1), (162, 1), (296, 0)];

/// A script that opens the journal, and does nothing else.
pub const ONE_LINE: &str = "replica a\n";

pub const ROWS: [Opened; 11] = [
    Opened {
        name: "a restart on an empty disk",
        from: 0,
        to: 1,
        seven: WHOLE,
        failing_call: 0,
        policy: POLICY,
        script: "replica a\ninit a start()\nact a put(7)\nrestart a\nfacts a\n",
        status: 0,
        text: &[REPLICA, INIT, ACT, "restart a: holds 2\n", FACTS],
    },
    Opened {
        name: "less than a begun journal",
        from: 0,
        to: 2,
        seven: WHOLE,
        failing_call: 0,
        policy: POLICY,
        script: ONE_LINE,
        status: 0,
        text: &[REPLICA],
    },
    Opened {
        name: "the first record cut short",
        from: 2,
        to: 39,
        seven: WHOLE,
        failing_call: 0,
        policy: POLICY,
        script: ONE_LINE,
        status: 9,
        text: &["journal a refused: damaged at 0\n"],
    },
    Opened {
        name: "the second record cut short",
        from: 39,
        to: 163,
        seven: WHOLE,
        failing_call: 0,
        policy: POLICY,
        script: ONE_LINE,
        status: 9,
        text: &["journal a refused: damaged at 38\n"],
    },
    Opened {
        name: "the third record cut short",
        from: 163,
        to: WHOLE,
        seven: WHOLE,
        failing_call: 0,
        policy: POLICY,
        script: ONE_LINE,
        status: 9,
        text: &["journal a refused: damaged at 162\n"],
    },
    Opened {
        name: "a second run",
        from: WHOLE,
        to: WHOLE + 1,
        seven: WHOLE,
        failing_call: 0,
        policy: POLICY,
        script: "replica a\nrestart a\nfacts a\n",
        status: 0,
        text: &["replica a holds 2\n", "restart a: holds 2\n", FACTS],
    },
    Opened {
        name: "a gate of 7",
        from: WHOLE,
        to: WHOLE + 1,
        seven: 162,
        failing_call: 0,
        policy: POLICY,
        script: ONE_LINE,
        status: 0,
        text: &["replica a holds 1\n"],
    },
    Opened {
        name: "the same items in another document",
        from: WHOLE,
        to: WHOLE + 1,
        seven: WHOLE,
        failing_call: 0,
        policy: OTHER_LAYOUT,
        script: ONE_LINE,
        status: 9,
        text: &[
            "journal a refused: other policy 5ae5b1d8694ecb29eeccc05f7a29f95682292666b2599082e4b25c0831f84631\n",
        ],
    },
    Opened {
        name: "the first of two journals, which another name takes",
        from: WHOLE,
        to: WHOLE + 1,
        seven: WHOLE,
        failing_call: 0,
        policy: POLICY,
        script: "replica b\nreplica a\n",
        status: 0,
        text: &["replica b holds 2\n", REPLICA],
    },
    Opened {
        name: "an empty disk whose first sync fails",
        from: 0,
        to: 1,
        seven: WHOLE,
        failing_call: 1,
        policy: POLICY,
        script: SCRIPT,
        status: 6,
        text: &[],
    },
    Opened {
        name: "a journal whose first sync fails",
        from: WHOLE,
        to: WHOLE + 1,
        seven: WHOLE,
        failing_call: 1,
        policy: POLICY,
        script: ONE_LINE,
        status: 6,
        text: &[],
    },
];

/// Runs of the first example on an empty disk of which one call fails: the one of this number, once for each from the first one up to the last, which is left
/// out. What such a run prints, and what a second run on the disk then prints of the replica.
#[derive(Clone, Copy)]
pub struct Failed {
    pub from: u64,
    pub to: u64,
    pub text: &'static [&'static str],
    pub held: &'static [&'static str],
}

/// The opening takes eight calls, and each commit a write and a sync of its record, and a write and a sync of its gate. Where the last sync of a commit fails,
/// the disk has it.
pub const FAILED: [Failed; 5] = [
    Failed {
        from: 1,
        to: 9,
        text: &[],
        held: &[REPLICA],
    },
    Failed {
        from: 9,
        to: 12,
        text: &[REPLICA],
        held: &[REPLICA],
    },
    Failed {
        from: 12,
        to: 13,
        text: &[REPLICA],
        held: &["replica a holds 1\n"],
    },
    Failed {
        from: 13,
        to: 16,
        text: &[REPLICA, INIT],
        held: &["replica a holds 1\n"],
    },
    Failed {
        from: 16,
        to: 17,
        text: &[REPLICA, INIT],
        held: &["replica a holds 2\n"],
    },
];
