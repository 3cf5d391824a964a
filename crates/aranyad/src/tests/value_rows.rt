// Values as they are printed, and arguments that are values of no parameter.
//
// The ids in the texts were computed by a program of its own (Python's hashlib), by `docs/FORMATS.md`. The other words of
// the texts were worked out by hand from `docs/SCRIPT.md` and the policy.
use crate::tests::documents_of_rows::VALUES;
use crate::tests::rows::{FIRST, Row};

pub const ROWS: [Row; 2] = [
    Row {
        name: "each kind of value in facts and effects",
        policy: VALUES,
        script: r#"replica a
init a start()
act a put(9223372036854775807, false, "", 0x, id:0BDB575CE45147CFE6331102C449D5776B1D0A7D80E891510DBFF07045B3BD85, Level::Low, Some(-3), Some(Some(None)), Pair { right: true, left: -0 })
act a put(-9223372036854775808, true, "a \"b\" \\ \n", 0x00fF, @b, Level::High, None, None, Pair { left: 007, right: false })
act a put(1, true, "z", 0x01, @a, Level::High, None, Some(None), Pair { left: 1, right: true })
act a put(1, true, "é", 0x, @a, Level::Low, Some(1), Some(Some(Some(2))), Pair { left: 1, right: true })
act a put(1, false, "z", 0x01, @a, Level::High, None, Some(Some(None)), Pair { left: 1, right: true })
act a put(1, true, "z", 0x01, @a, Level::Low, None, None, Pair { left: 1, right: true })
act a put(1, true, "z", 0x00ff, @a, Level::Low, None, None, Pair { left: 1, right: true })
facts a
effects a
"#,
        text: &[
            r#"replica a holds 0
init a: published 1, merges 0, cut 0, entries 1
act a: published 1, merges 0, cut 1, entries 1
act a: published 1, merges 0, cut 2, entries 1
act a: published 1, merges 0, cut 3, entries 1
act a: published 1, merges 0, cut 4, entries 1
act a: published 1, merges 0, cut 5, entries 1
act a: published 1, merges 0, cut 6, entries 1
act a: published 1, merges 0, cut 7, entries 1
facts a: 7
  Thing[n: -9223372036854775808, b: true, s: "a \"b\" \\ \n", x: 0x00ff, i: id:b5cce7eefa57018aea9db76a5a27040bf0880c5f6dfed5359189b06ce65d541b, e: Level::High]=>{o: None, d: None, p: Pair { left: 7, right: false }}
  Thing[n: 1, b: false, s: "z", x: 0x01, i: id:58f468f820d490d5fadd64f8a6425a391cd001765dc4edd9dff0b5f3fadc4a96, e: Level::High]=>{o: None, d: Some(Some(None)), p: Pair { left: 1, right: true }}
  Thing[n: 1, b: true, s: "z", x: 0x00ff, i: id:58f468f820d490d5fadd64f8a6425a391cd001765dc4edd9dff0b5f3fadc4a96, e: Level::Low]=>{o: None, d: None, p: Pair { left: 1, right: true }}
  Thing[n: 1, b: true, s: "z", x: 0x01, i: id:58f468f820d490d5fadd64f8a6425a391cd001765dc4edd9dff0b5f3fadc4a96, e: Level::Low]=>{o: None, d: None, p: Pair { left: 1, right: true }}
  Thing[n: 1, b: true, s: "z", x: 0x01, i: id:58f468f820d490d5fadd64f8a6425a391cd001765dc4edd9dff0b5f3fadc4a96, e: Level::High]=>{o: None, d: Some(None), p: Pair { left: 1, right: true }}
  Thing[n: 1, b: true, s: "é", x: 0x, i: id:58f468f820d490d5fadd64f8a6425a391cd001765dc4edd9dff0b5f3fadc4a96, e: Level::Low]=>{o: Some(1), d: Some(Some(Some(2))), p: Pair { left: 1, right: true }}
  Thing[n: 9223372036854775807, b: false, s: "", x: 0x, i: id:0bdb575ce45147cfe6331102c449d5776b1d0a7d80e891510dbff07045b3bd85, e: Level::Low]=>{o: Some(-3), d: Some(Some(None)), p: Pair { left: 0, right: true }}
effects a: 14
  Empty {}
  Shown { n: 9223372036854775807, o: Some(-3), p: Pair { left: 0, right: true }, m: Mark {} }
  Empty {}
  Shown { n: -9223372036854775808, o: None, p: Pair { left: 7, right: false }, m: Mark {} }
  Empty {}
  Shown { n: 1, o: None, p: Pair { left: 1, right: true }, m: Mark {} }
  Empty {}
  Shown { n: 1, o: Some(1), p: Pair { left: 1, right: true }, m: Mark {} }
  Empty {}
  Shown { n: 1, o: None, p: Pair { left: 1, right: true }, m: Mark {} }
  Empty {}
  Shown { n: 1, o: None, p: Pair { left: 1, right: true }, m: Mark {} }
  Empty {}
  Shown { n: 1, o: None, p: Pair { left: 1, right: true }, m: Mark {} }
"#,
        ],
        ..FIRST
    },
    Row {
        name: "arguments that are no values of their parameters",
        policy: VALUES,
        script: r#"replica a
init a start()
act a number(1)
act a number()
act a number(1, 2)
act a number("1")
act a number(true)
act a number(Some(1))
act a truth(1)
act a truth("true")
act a word(0x61)
act a word(@a)
act a raw("a")
act a raw(id:0bdb575ce45147cfe6331102c449d5776b1d0a7d80e891510dbff07045b3bd85)
act a name(0x0bdb575ce45147cfe6331102c449d5776b1d0a7d80e891510dbff07045b3bd85)
act a name("a")
act a level(Level::Middle)
act a level(Other::Low)
act a level("Low")
act a maybe(1)
act a maybe(Some("a"))
act a maybe(Some(Some(1)))
act a pair(Pair { left: 1 })
act a pair(Pair { left: 1, right: true, right: true })
act a pair(Pair { left: 1, right: true, other: 1 })
act a pair(Pair { left: true, right: 1 })
act a pair(Mark { left: 1, right: true })
act a pair(None)
act a gone(1)
graph a
"#,
        text: &[
            "replica a holds 0
init a: published 1, merges 0, cut 0, entries 1
act a: published 0, merges 0, cut 1, entries 0
act a: refused arguments
act a: refused arguments
act a: refused arguments
act a: refused arguments
act a: refused arguments
act a: refused arguments
act a: refused arguments
act a: refused arguments
act a: refused arguments
act a: refused arguments
act a: refused arguments
act a: refused arguments
act a: refused arguments
act a: refused arguments
act a: refused arguments
act a: refused arguments
act a: refused arguments
act a: refused arguments
act a: refused arguments
act a: refused arguments
act a: refused arguments
act a: refused arguments
act a: refused arguments
act a: refused arguments
act a: refused arguments
act a: refused unknown action
graph a: 1
  504c1471ca868d328d01ca649bb8072726b0948992d4bfd43bdf5b9d6589fabf init Start
",
        ],
        ..FIRST
    },
];
