// The limits of the files, and what is judged before what.
use crate::tests::rows::{FIRST, Row};

pub const ROWS: [Row; 13] = [
    Row {
        name: "a policy of the limit",
        policy_length: 1_048_576,
        ..FIRST
    },
    Row {
        name: "a policy of a byte more",
        policy_length: 1_048_577,
        status: 8,
        text: &["too large: policy\n"],
        ..FIRST
    },
    Row {
        name: "a script of the limit",
        script_length: 4_194_304,
        ..FIRST
    },
    Row {
        name: "a script of a byte more",
        script_length: 4_194_305,
        status: 8,
        text: &["too large: script\n"],
        ..FIRST
    },
    Row {
        name: "no policy",
        words: &["run", "gone", "script"],
        status: 4,
        text: &[],
        ..FIRST
    },
    Row {
        name: "no script",
        words: &["run", "policy", "gone"],
        status: 4,
        text: &[],
        ..FIRST
    },
    // What is judged first.
    Row {
        name: "a policy of a byte more that is none, and no script",
        words: &["run", "policy", "gone"],
        policy: "x",
        policy_length: 1_048_577,
        status: 8,
        text: &["too large: policy\n"],
        ..FIRST
    },
    Row {
        name: "no policy, and a script of a byte more",
        words: &["run", "gone", "script"],
        script_length: 4_194_305,
        status: 4,
        text: &[],
        ..FIRST
    },
    Row {
        name: "a document without tokens, and no script",
        words: &["run", "policy", "gone"],
        policy: "x\n",
        status: 1,
        text: &["policy refused: no front matter, line 1\n"],
        ..FIRST
    },
    Row {
        name: "a syntax fault, and no script",
        words: &["run", "policy", "gone"],
        policy: "---\npolicy-version: 2\n---\n```policy\n}\n```\n",
        status: 1,
        text: &["policy refused: syntax, line 5\n"],
        ..FIRST
    },
    Row {
        name: "an ill-typed item, and no script",
        words: &["run", "policy", "gone"],
        policy: "---\npolicy-version: 2\n---\n```policy\naction g() { publish Nope { } }\n```\n",
        status: 1,
        text: &["policy refused: type, line 5\n"],
        ..FIRST
    },
    Row {
        name: "a document without tokens, and a script of a byte more",
        policy: "x\n",
        script_length: 4_194_305,
        status: 1,
        text: &["policy refused: no front matter, line 1\n"],
        ..FIRST
    },
    Row {
        name: "a script of a byte more with a bad line",
        script: "x\n",
        script_length: 4_194_305,
        status: 8,
        text: &["too large: script\n"],
        ..FIRST
    },
];
