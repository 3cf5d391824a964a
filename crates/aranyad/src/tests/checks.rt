// Policies that are judged and don't run.
use crate::tests::rows::{FIRST, Row};

/// The first example, judged.
const CHECKED: Row = Row {
    name: "the first example",
    words: &["check", "policy"],
    text: &["policy ok: items 6\n"],
    ..FIRST
};

pub const ROWS: [Row; 9] = [
    CHECKED,
    Row {
        name: "no items",
        policy: "---\npolicy-version: 2\n---\n",
        text: &["policy ok: items 0\n"],
        ..CHECKED
    },
    Row {
        name: "an enum",
        policy: "---\npolicy-version: 2\n---\n```policy\nenum A { X }\n```\n",
        text: &["policy ok: items 1\n"],
        ..CHECKED
    },
    Row {
        name: "an item that isn't well typed",
        policy: "---\npolicy-version: 2\n---\n```policy\nfunction f(a int) bool { check a return true }\naction g() { publish Nope { } }\n```\n",
        status: 1,
        text: &["policy refused: type, line 5\n"],
        ..CHECKED
    },
    Row {
        name: "syntax before types",
        policy: "---\npolicy-version: 2\n---\n```policy\naction g() { publish Nope { } }\n}\n```\n",
        status: 1,
        text: &["policy refused: syntax, line 6\n"],
        ..CHECKED
    },
    Row {
        name: "a policy of a byte more",
        policy_length: 1_048_577,
        status: 8,
        text: &["too large: policy\n"],
        ..CHECKED
    },
    Row {
        name: "no policy",
        words: &["check", "gone"],
        status: 4,
        text: &[],
        ..CHECKED
    },
    Row {
        name: "a write that fails",
        failing_write: 1,
        status: 5,
        text: &[],
        ..CHECKED
    },
    Row {
        name: "a narrow sink",
        taken: 2,
        ..CHECKED
    },
];
