// The first example, with one call after the other that fails.
use crate::tests::rows::{ACT, FACTS, FIRST, INIT, REPLICA, Row};

/// A name, the numbers from 1 of the read, the write and the seal that fails, the status, and what was written. The last
/// number of each device is one more than a run needs.
pub const FAILURES: [(&str, u64, u64, u64, u8, &[&str]); 11] = [
    ("the policy's read", 1, 0, 0, 4, &[]),
    ("the script's read", 2, 0, 0, 4, &[]),
    ("no third read", 3, 0, 0, 0, &[REPLICA, INIT, ACT, FACTS]),
    ("the first write", 0, 1, 0, 5, &[]),
    ("the second write", 0, 2, 0, 5, &[REPLICA]),
    ("the third write", 0, 3, 0, 5, &[REPLICA, INIT]),
    ("the fourth write", 0, 4, 0, 5, &[REPLICA, INIT, ACT]),
    ("no fifth write", 0, 5, 0, 0, &[REPLICA, INIT, ACT, FACTS]),
    ("the first seal", 0, 0, 1, 10, &[REPLICA]),
    ("the second seal", 0, 0, 2, 10, &[REPLICA, INIT]),
    ("no third seal", 0, 0, 3, 0, &[REPLICA, INIT, ACT, FACTS]),
];

/// The same over sinks that take few bytes a call.
pub const NARROW: [Row; 4] = [
    Row {
        name: "a byte a write",
        taken: 1,
        ..FIRST
    },
    Row {
        name: "seven bytes a write",
        taken: 7,
        ..FIRST
    },
    Row {
        name: "a byte a write, of which the twentieth fails",
        failing_write: 20,
        taken: 1,
        status: 5,
        text: &[REPLICA, "i"],
        ..FIRST
    },
    Row {
        name: "seven bytes a write, of which the third fails",
        failing_write: 3,
        taken: 7,
        status: 5,
        text: &["replica a hold"],
        ..FIRST
    },
];
