// Documents that are refused.

/// Each with its name, its text, the bytes that stand behind the text, and what is printed.
pub const REFUSED: [(&str, &str, &[u8], &[&str]); 22] = [
    // Faults of a document and their lines.
    (
        "a byte that belongs to no character",
        "---\npolicy-version: 2\n",
        b"---\n\xff",
        &["policy refused: not utf-8, line 4\n"],
    ),
    (
        "no front matter",
        "x\n",
        b"",
        &["policy refused: no front matter, line 1\n"],
    ),
    (
        "an empty document",
        "",
        b"",
        &["policy refused: no front matter, line 1\n"],
    ),
    (
        "a front matter without an end",
        "---\npolicy-version: 2\n",
        b"",
        &["policy refused: no front matter, line 1\n"],
    ),
    (
        "a front matter without a version",
        "---\nversion: 2\n---\n",
        b"",
        &["policy refused: no front matter, line 1\n"],
    ),
    (
        "version 1",
        "---\npolicy-version: 1\n---\n",
        b"",
        &["policy refused: wrong version, line 2\n"],
    ),
    (
        "version 3",
        "---\n\npolicy-version: 3\n---\n",
        b"",
        &["policy refused: wrong version, line 3\n"],
    ),
    (
        "an open block",
        "---\npolicy-version: 2\n---\n```policy\nenum A { X }\nenum B { Y }\nenum C { Z\n; }\n",
        b"",
        &["policy refused: open block, line 4\n"],
    ),
    (
        "a bad token",
        "---\npolicy-version: 2\n---\n```policy\nenum A { X }\nenum B { Y }\nenum C { Z\n; }\n```\n",
        b"",
        &["policy refused: bad token, line 8\n"],
    ),
    (
        "a text that isn't ended",
        "---\npolicy-version: 2\n---\n```policy\nlet a = \"x\n```\n",
        b"",
        &["policy refused: bad token, line 5\n"],
    ),
    (
        "a comment that isn't ended",
        "---\npolicy-version: 2\n---\n```policy\nuse a\n/* b\n```\n",
        b"",
        &["policy refused: bad token, line 6\n"],
    ),
    // The first fault in their order.
    (
        "no character before no front matter",
        "x\n",
        b"\xff",
        &["policy refused: not utf-8, line 2\n"],
    ),
    (
        "no front matter before an open block",
        "```policy\n;\n",
        b"",
        &["policy refused: no front matter, line 1\n"],
    ),
    (
        "a wrong version before an open block",
        "---\npolicy-version: 1\n---\n```policy\n;\n",
        b"",
        &["policy refused: wrong version, line 2\n"],
    ),
    // Documents that have tokens, and spell no items.
    (
        "an item that isn't whole",
        "---\npolicy-version: 2\n---\n```policy\nenum A { X }\nenum B { Y }\nenum C { Z\n: }\n```\n",
        b"",
        &["policy refused: syntax, line 7\n"],
    ),
    (
        "tokens that begin no item",
        "---\npolicy-version: 2\n---\n```policy\n: }\n```\n",
        b"",
        &["policy refused: syntax, line 5\n"],
    ),
    (
        "an item that is cut off by the end of the last block",
        "---\npolicy-version: 2\n---\n```policy\nuse a\n```\n```policy\nenum A {\n```\n",
        b"",
        &["policy refused: syntax, line 8\n"],
    ),
    (
        "a whole item inside a broken one",
        "---\npolicy-version: 2\n---\n```policy\nuse a\nenum B { C\nuse d\n```\n",
        b"",
        &["policy refused: syntax, line 6\n"],
    ),
    (
        "a symbol behind a whole item",
        "---\npolicy-version: 2\n---\n```policy\nenum A { X }\n}\n```\n",
        b"",
        &["policy refused: syntax, line 6\n"],
    ),
    // Items that aren't all well typed.
    (
        "a name that is no item's",
        "---\npolicy-version: 2\n---\n```policy\nfunction f(a int) bool { check a return true }\naction g() { publish Nope { } }\n```\n",
        b"",
        &["policy refused: type, line 5\n"],
    ),
    (
        "the second item alone",
        "---\npolicy-version: 2\n---\n```policy\nfunction f(a bool) bool { check a return true }\naction g() { publish Nope { } }\naction g() { }\n```\n",
        b"",
        &["policy refused: type, line 6\n"],
    ),
    (
        "a field that the command doesn't have",
        "---\npolicy-version: 2\n---\n```policy\nfact Item[n int]=>{by id}\ncommand Start { attributes { init: true } fields { } seal { return envelope::do_seal(serialize(this)) } open { return deserialize(envelope::do_open(envelope)) } policy { finish { } } }\naction start(n int) { publish Start { n: n } }\n```\n",
        b"",
        &["policy refused: type, line 7\n"],
    ),
];
