// Short scripts, and scripts that are refused.
use crate::tests::rows::{ACT, FACTS, FIRST, INIT, OTHER_LAYOUT, REPLICA, Row};

const UNCHECKED: &[&str] = &[
    REPLICA,
    INIT,
    "act a: refused command Put: check\n",
    "facts a: 0\n",
];

pub const ROWS: [Row; 27] = [
    // Scripts that run.
    FIRST,
    Row {
        name: "the same items in another layout",
        policy: OTHER_LAYOUT,
        ..FIRST
    },
    Row {
        name: "no line",
        script: "",
        text: &[],
        ..FIRST
    },
    Row {
        name: "one line",
        script: "replica a\n",
        text: &[REPLICA],
        ..FIRST
    },
    Row {
        name: "two lines",
        script: "replica a\ninit a start()\n",
        text: &[REPLICA, INIT],
        ..FIRST
    },
    Row {
        name: "three lines",
        script: "replica a\ninit a start()\nact a put(7)\n",
        text: &[REPLICA, INIT, ACT],
        ..FIRST
    },
    Row {
        name: "six lines",
        script: "replica a\ninit a start()\nact a put(7)\nfacts a\nfacts a\neffects a\n",
        text: &[
            REPLICA,
            INIT,
            ACT,
            FACTS,
            FACTS,
            "effects a: 1\n  Added { n: 7 }\n",
        ],
        ..FIRST
    },
    Row {
        name: "blank lines and comments",
        script: "\n# replica a\n   \nreplica a\n#\ninit a start()\n\n",
        text: &[REPLICA, INIT],
        ..FIRST
    },
    Row {
        name: "a check that fails",
        script: "replica a\ninit a start()\nact a put(0)\nfacts a\n",
        text: UNCHECKED,
        ..FIRST
    },
    Row {
        name: "a check that fails, with spaces and carriage returns",
        script: "  replica  a\r\ninit a start ( )\r\nact a put( -0 ) \nfacts a",
        text: UNCHECKED,
        ..FIRST
    },
    Row {
        name: "a text for a number",
        script: "replica a\ninit a start()\nact a put(\"x\")\n",
        text: &[REPLICA, INIT, "act a: refused arguments\n"],
        ..FIRST
    },
    Row {
        name: "an argument too many",
        script: "replica a\ninit a start()\nact a put(7, 7)\n",
        text: &[REPLICA, INIT, "act a: refused arguments\n"],
        ..FIRST
    },
    Row {
        name: "an action that isn't there",
        script: "replica a\ninit a start()\nact a gone()\n",
        text: &[REPLICA, INIT, "act a: refused unknown action\n"],
        ..FIRST
    },
    Row {
        name: "a policy without actions",
        policy: "---\npolicy-version: 2\n---\n```policy\nenum A { X }\n```\n",
        text: &[
            REPLICA,
            "init a: refused unknown action\n",
            "act a: refused no graph\n",
            "facts a: 0\n",
        ],
        ..FIRST
    },
    Row {
        name: "a policy without blocks",
        policy: "---\npolicy-version: 2\n---\n",
        script: "",
        text: &[],
        ..FIRST
    },
    // Scripts with a bad line, which run no line.
    Row {
        name: "a large letter in a name",
        script: "replica A\ninit a start()\n",
        status: 3,
        text: &["script refused: line 1\n"],
        ..FIRST
    },
    Row {
        name: "letters that no name has",
        script: "replica \u{e4}\n",
        status: 3,
        text: &["script refused: line 1\n"],
        ..FIRST
    },
    Row {
        name: "a comment behind spaces",
        script: " # x\nreplica a\n",
        status: 3,
        text: &["script refused: line 1\n"],
        ..FIRST
    },
    Row {
        name: "a replica that no line declares",
        script: "replica a\ninit b start()\n",
        status: 3,
        text: &["script refused: line 2\n"],
        ..FIRST
    },
    Row {
        name: "a replica that a later line declares",
        script: "replica a\njoin a b\nreplica b\n",
        status: 3,
        text: &["script refused: line 2\n"],
        ..FIRST
    },
    Row {
        name: "a name twice",
        script: "replica a\nreplica b\nreplica a\n",
        status: 3,
        text: &["script refused: line 3\n"],
        ..FIRST
    },
    Row {
        name: "a ninth replica",
        script: "replica a\nreplica b\nreplica c\nreplica d\nreplica e\nreplica f\nreplica g\nreplica h\nreplica i\n",
        status: 3,
        text: &["script refused: line 9\n"],
        ..FIRST
    },
    Row {
        name: "a message whose number comes later",
        script: "replica a\ntake a 1\nask a\n",
        status: 3,
        text: &["script refused: line 2\n"],
        ..FIRST
    },
    Row {
        name: "two bad lines",
        script: "replica a\ninit a begin()\nact a\nact b\n",
        status: 3,
        text: &["script refused: line 3\n"],
        ..FIRST
    },
    Row {
        name: "an open call",
        script: "replica a\ninit a start()\nact a put(7",
        status: 3,
        text: &["script refused: line 3\n"],
        ..FIRST
    },
    Row {
        name: "a comma behind the last argument",
        script: "replica a\ninit a start()\nact a put(7,)\n",
        status: 3,
        text: &["script refused: line 3\n"],
        ..FIRST
    },
    Row {
        name: "a tab",
        script: "replica a\ninit a start()\nact a put(7)\nfacts\ta\n",
        status: 3,
        text: &["script refused: line 4\n"],
        ..FIRST
    },
];
