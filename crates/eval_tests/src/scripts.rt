// Scripts of one replica with all that they print.
use crate::documents::{FAULTS, VALUES};
use language_tests::policies::{FIRST, PRIORITIES, TEAM};

pub struct Script {
    pub title: &'static str,
    pub document: &'static str,
    /// `%` stands for 1,019 letters, so that four of them, with what else is in the payload of a `Long`, are the greatest payload.
    pub lines: &'static str,
    /// The numbers of the seals that fail, from 1.
    pub failing: &'static [u64],
    /// A line that a failed seal ends is `seal fault`.
    pub text: &'static str,
}

pub const SCRIPTS: [Script; 10] = [
    Script {
        title: "a number is put, and others are refused",
        document: FIRST,
        lines: r#"replica a
init a start()
act a put(0)
facts a
act a put("x")
act a gone()
act a put(7)
facts a
"#,
        failing: &[],
        text: "init a: published 1, merges 0, cut 0, entries 1
act a: refused command Put: check
facts a: 0
act a: refused arguments
act a: refused unknown action
act a: published 1, merges 0, cut 1, entries 1
facts a: 1
  Item[n: 7]=>{by: id:58f468f820d490d5fadd64f8a6425a391cd001765dc4edd9dff0b5f3fadc4a96}
",
    },
    Script {
        title: "of two commands the second is refused, and the first isn't kept",
        document: TEAM,
        lines: r#"replica alice
init alice create_team()
act alice write_two("x", 1, 1)
facts alice
effects alice
"#,
        failing: &[],
        text: "init alice: published 1, merges 0, cut 0, entries 1
act alice: refused command WriteNote: check
facts alice: 1
  User[user: id:9e45386d67a07521261d26ddd4939615437659a5a4508a2adbaecda43f584de7]=>{role: Role::Owner}
effects alice: 1
  UserAdded { user: id:9e45386d67a07521261d26ddd4939615437659a5a4508a2adbaecda43f584de7, role: Role::Owner }
",
    },
    Script {
        title: "a query with one key answers the first row in the order of keys",
        document: PRIORITIES,
        lines: r#"replica a
init a begin()
act a say("", 3, 1)
act a say("a", 0, 2)
act a say("", -1, 3)
act a probe(3)
act a probe(1)
"#,
        failing: &[],
        text: "init a: published 1, merges 0, cut 0, entries 1
act a: published 1, merges 0, cut 1, entries 1
act a: published 1, merges 0, cut 2, entries 1
act a: published 1, merges 0, cut 3, entries 1
act a: published 0, merges 0, cut 4, entries 0
act a: refused check
",
    },
    Script {
        title: "a map goes through the rows that were there when it began",
        document: PRIORITIES,
        lines: "replica a
init a begin()
act a claim(1, 1)
act a claim(2, 2)
act a claim(3, 3)
act a free_all()
facts a
effects a
",
        failing: &[],
        text: "init a: published 1, merges 0, cut 0, entries 1
act a: published 1, merges 0, cut 1, entries 1
act a: published 1, merges 0, cut 2, entries 1
act a: published 1, merges 0, cut 3, entries 1
act a: published 3, merges 0, cut 4, entries 3
facts a: 1
  Count[]=>{n: 0}
effects a: 3
  Did { v: 1 }
  Did { v: 2 }
  Did { v: 3 }
",
    },
    Script {
        title: "the first action of a graph, and what is refused before it",
        document: FAULTS,
        lines: r#"replica a
act a nope(1)
init a nope(1)
init a start(1)
init a put(0, 1)
init a start_twice()
init a nothing()
act a nothing()
facts a
graph a
init a start_put(1)
init a start("")
facts a
"#,
        failing: &[],
        text: "act a: refused no graph
init a: refused unknown action
init a: refused arguments
init a: refused command Put: wrong kind
init a: refused command Start: wrong kind
init a: published 0, merges 0, cut 0, entries 0
act a: refused no graph
facts a: 0
graph a: 0
init a: published 2, merges 0, cut 0, entries 2
init a: refused has graph
facts a: 2
  Row[n: 0]=>{v: 0}
  Row[n: 1]=>{v: 1}
",
    },
    Script {
        title: "each refusal of an action, two causes at once where there are two",
        document: FAULTS,
        lines: r#"replica a
init a start_put(1)
act a nope(1)
act a put(0)
act a put(0, "x")
act a check_put(0, false)
act a put_check(0, false)
act a put_check(5, false)
act a start("%%%%%")
act a long("%%%%x", 0)
act a long("%%%%", 0)
act a start("")
act a put_two(2, 0)
act a put_two(2, 2)
facts a
effects a
act a long("%%%%", 1)
"#,
        failing: &[],
        text: "init a: published 2, merges 0, cut 0, entries 2
act a: refused unknown action
act a: refused arguments
act a: refused arguments
act a: refused check
act a: refused command Put: check
act a: refused check
act a: refused fault too long
act a: refused fault too long
act a: refused command Long: check
act a: refused command Start: wrong kind
act a: refused command Put: check
act a: refused command Put: fault exists
facts a: 2
  Row[n: 0]=>{v: 0}
  Row[n: 1]=>{v: 1}
effects a: 1
  Seen { n: 1 }
act a: published 1, merges 0, cut 2, entries 1
",
    },
    Script {
        title: "each fault of a policy block, after which no write and no effect is kept",
        document: FAULTS,
        lines: "replica a
init a start_put(1)
act a put(1, 3)
act a change(9, 1)
act a change(1, 2)
act a remove(9)
act a find(9)
act a need(9)
act a spin()
facts a
effects a
act a put_find(2)
act a change(1, 1)
act a remove(0)
facts a
effects a
",
        failing: &[],
        text: "init a: published 2, merges 0, cut 0, entries 2
act a: refused command Put: fault exists
act a: refused command Change: fault missing
act a: refused command Change: fault differs
act a: refused command Remove: fault missing
act a: refused command Find: fault unwrap
act a: refused command Need: check
act a: refused command Spin: fault turns
facts a: 2
  Row[n: 0]=>{v: 0}
  Row[n: 1]=>{v: 1}
effects a: 1
  Seen { n: 1 }
act a: published 1, merges 0, cut 2, entries 1
act a: published 1, merges 0, cut 3, entries 1
act a: published 1, merges 0, cut 4, entries 1
facts a: 4
  Row[n: 1]=>{v: 9}
  Row[n: 2]=>{v: 7}
  Row[n: 50]=>{v: 0}
  Row[n: 60]=>{v: 0}
effects a: 3
  Seen { n: 1 }
  Seen { n: 2 }
  Seen { n: 0 }
",
    },
    Script {
        title: "each fault of an action's body, and the turns that it may take",
        document: FAULTS,
        lines: r#"replica a
init a start("")
act a find_row(9)
act a need_row(9)
act a both(false, 9)
act a both(true, 9)
act a both(true, 0)
act a full_turns()
act a past_turns()
act a sums()
act a past_sum()
"#,
        failing: &[],
        text: "init a: published 1, merges 0, cut 0, entries 1
act a: refused fault unwrap
act a: refused check
act a: refused check
act a: refused fault unwrap
act a: published 0, merges 0, cut 1, entries 0
act a: published 0, merges 0, cut 1, entries 0
act a: refused fault turns
act a: published 0, merges 0, cut 1, entries 0
act a: refused fault unwrap
",
    },
    Script {
        title: "a seal that fails, behind the faults that come before it",
        document: FAULTS,
        lines: r#"replica a
init a start("")
act a long("%%%%x", 1)
act a start("")
act a put(0, 1)
act a put(1, 1)
act a put(1, 1)
act a put_two(2, 3)
facts a
"#,
        failing: &[2, 3, 6],
        text: "init a: published 1, merges 0, cut 0, entries 1
act a: refused fault too long
act a: refused command Start: wrong kind
seal fault
seal fault
act a: published 1, merges 0, cut 1, entries 1
seal fault
facts a: 2
  Row[n: 0]=>{v: 0}
  Row[n: 1]=>{v: 1}
",
    },
    Script {
        title: "a value of each type",
        document: VALUES,
        lines: r#"replica a
init a start()
act a show(-5, true, "q\"\\\n", 0xAb01, id:0A0A0A0A0A0A0A0A0A0A0A0A0A0A0A0A0A0A0A0A0A0A0A0A0A0A0A0A0A0A0A0A, Color::Blue, None, Pair { b: Some("x"), a: 1 }, Empty { }, Some(Empty {}))
act a show(9223372036854775807, false, "", 0x, id:ffffffffffffffffffffffffffffffffffffffffffffffffffffffffffffffff, Color::Red, Some(-9223372036854775808), Pair { a: 0, b: None }, Empty {}, None)
act a show(0, false, "", 0x, id:ffffffffffffffffffffffffffffffffffffffffffffffffffffffffffffffff, Color::Green, None, Pair { a: 0, b: None }, Empty {}, None)
act a show(0, false, "", 0x, id:ffffffffffffffffffffffffffffffffffffffffffffffffffffffffffffffff, Color::Red, None, Pair { a: 0 }, Empty {}, None)
act a show(Some(0), false, "", 0x, id:ffffffffffffffffffffffffffffffffffffffffffffffffffffffffffffffff, Color::Red, None, Pair { a: 0, b: None }, Empty {}, None)
facts a
effects a
"#,
        failing: &[],
        text: r#"init a: published 1, merges 0, cut 0, entries 1
act a: published 1, merges 0, cut 1, entries 1
act a: published 1, merges 0, cut 2, entries 1
act a: refused arguments
act a: refused arguments
act a: refused arguments
facts a: 2
  Key[c: Color::Red, b: false, d: 0x, e: id:ffffffffffffffffffffffffffffffffffffffffffffffffffffffffffffffff, t: ""]=>{p: Pair { a: 0, b: None }, o: Some(None)}
  Key[c: Color::Blue, b: true, d: 0xab01, e: id:0a0a0a0a0a0a0a0a0a0a0a0a0a0a0a0a0a0a0a0a0a0a0a0a0a0a0a0a0a0a0a0a, t: "q\"\\\n"]=>{p: Pair { a: 1, b: Some("x") }, o: Some(None)}
effects a: 2
  All { a: -5, b: true, c: "q\"\\\n", d: 0xab01, e: id:0a0a0a0a0a0a0a0a0a0a0a0a0a0a0a0a0a0a0a0a0a0a0a0a0a0a0a0a0a0a0a0a, f: Color::Blue, g: None, h: Pair { a: 1, b: Some("x") }, i: Empty {}, j: Some(Empty {}) }
  All { a: 9223372036854775807, b: false, c: "", d: 0x, e: id:ffffffffffffffffffffffffffffffffffffffffffffffffffffffffffffffff, f: Color::Red, g: Some(-9223372036854775808), h: Pair { a: 0, b: None }, i: Empty {}, j: None }
"#,
    },
];
