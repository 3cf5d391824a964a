// A row of a table, and the run that the others vary.

/// A run and what must come of it. The files `policy` and `script` are texts whose last space is repeated until they have
/// their length, and the policy has these bytes behind its text; the calls with these numbers, from 1, are to fail; a write takes at most so many bytes.
#[derive(Clone, Copy)]
pub struct Row {
    pub name: &'static str,
    pub words: &'static [&'static str],
    pub policy: &'static str,
    pub policy_length: usize,
    pub policy_end: &'static [u8],
    pub script: &'static str,
    pub script_length: usize,
    pub failing_read: u64,
    pub failing_write: u64,
    pub failing_seal: u64,
    pub taken: usize,
    pub status: u8,
    pub text: &'static [&'static str],
}

/// The policy of the first example.
pub const POLICY: &str =
    "---\npolicy-version: 2\n---\n```policy\nfact Item[n int]=>{by id}\neffect Added { n int }\ncommand Start { attributes { init: true } fields { } seal { return envelope::do_seal(serialize(this)) } open { return deserialize(envelope::do_open(envelope)) } policy { finish { } } }\ncommand Put { fields { n int } seal { return envelope::do_seal(serialize(this)) } open { return deserialize(envelope::do_open(envelope)) }\n  policy { check this.n > 0 let who = envelope::author_id(envelope)\n    finish { create Item[n: this.n]=>{by: who} emit Added { n: this.n } } } }\naction start() { publish Start { } }\naction put(n int) { publish Put { n: n } }\n```\n";

/// The same items in another layout: with comments, in two blocks, with parentheses and commas that leave no trace.
pub const OTHER_LAYOUT: &str =
    "--- \nname: x\npolicy-version: \"2\"\n---\nText.\n````policy\naction start() { publish (Start { }) }\naction put(n int,) { publish Put { n: n, } }\n// The fact.\nfact Item[n int,]=>{by id}\n````\n```text\n;\n```\n```policy\neffect Added { n int } /* The first\ncommand. */\ncommand Start { attributes { init: true, } fields { } seal { return envelope::do_seal(serialize(this)) } open { return deserialize(envelope::do_open(envelope)) } policy { finish { } } }\ncommand Put { fields { n int } seal { return envelope::do_seal(serialize(this)) } open { return deserialize(envelope::do_open(envelope)) }\n  policy { check ((this).n > (0)) let who = (envelope::author_id(envelope))\n    finish { create Item[n: (this.n)]=>{by: who,} emit Added { n: this.n } } } }\n```\n";

/// The script of the first example.
pub const SCRIPT: &str = "replica a\ninit a start()\nact a put(7)\nfacts a\n";

/// The texts of its lines.
pub const REPLICA: &str = "replica a holds 0\n";

pub const INIT: &str = "init a: published 1, merges 0, cut 0, entries 1\n";

pub const ACT: &str = "act a: published 1, merges 0, cut 1, entries 1\n";

pub const FACTS: &str =
    "facts a: 1\n  Item[n: 7]=>{by: id:58f468f820d490d5fadd64f8a6425a391cd001765dc4edd9dff0b5f3fadc4a96}\n";

/// The first example.
pub const FIRST: Row = Row {
    name: "the first example",
    words: &["run", "policy", "script"],
    policy: POLICY,
    policy_length: 0,
    policy_end: b"",
    script: SCRIPT,
    script_length: 0,
    failing_read: 0,
    failing_write: 0,
    failing_seal: 0,
    taken: usize::MAX,
    status: 0,
    text: &[REPLICA, INIT, ACT, FACTS],
};
