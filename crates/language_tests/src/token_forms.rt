use crate::shown::shown;
use policy_lex::tokens;
use std::test::*;

// What stands from line 5 of a document on, in its one policy block, and what it is read as.
const ROWS: [(&str, &str); 57] = [
    (
        "{ } [ ] ( ) , : :: . ? = => == != < <= > >= && || | ! _",
        "<0> <1> <2> <3> <4> <5> <6> <7> <8> <9> <10> <11> <12> <13> <14> <15> <16> <17> <18> <19> <20> <21> <22> <23>",
    ),
    ("===>=!==", "<13> <12> <11> <14> <11>"),
    (":::", "<8> <7>"),
    ("|||", "<20> <21>"),
    ("<==", "<16> <11>"),
    ("!!=", "<22> <14>"),
    ("...", "<9> <9> <9>"),
    ("{}[]", "<0> <1> <2> <3>"),
    ("a_1 B x9_", "a_1 B x9_"),
    ("_a", "<23> a"),
    ("let lets", "let lets"),
    (
        "a123456789a123456789a123456789a123456789a123456789a123456789abcd",
        "a123456789a123456789a123456789a123456789a123456789a123456789abcd",
    ),
    (
        "a123456789a123456789a123456789a123456789a123456789a123456789abcde",
        "bad token, line 5",
    ),
    ("0 007 -0 -7", "0 7 0 -7"),
    ("12ab", "12 ab"),
    ("a-1", "a -1"),
    ("1-1", "1 -1"),
    ("9223372036854775807", "9223372036854775807"),
    ("-9223372036854775808", "-9223372036854775808"),
    ("000000000000000000000000000001", "1"),
    ("9223372036854775808", "bad token, line 5"),
    ("-9223372036854775809", "bad token, line 5"),
    ("99999999999999999999999999", "bad token, line 5"),
    ("- 1", "bad token, line 5"),
    ("-", "bad token, line 5"),
    ("--1", "bad token, line 5"),
    ("-a", "bad token, line 5"),
    ("\"\"", "\"\""),
    ("\"a b\"c", "\"a b\" c"),
    ("\"\\\\\"", "\"\\\""),
    ("\"\\\"\"", "\"\"\""),
    ("\"x\\ny\"", "\"x\ny\""),
    ("\"é€\"", "\"é€\""),
    ("\"/* // \"", "\"/* // \""),
    ("\"a\rb\"", "\"a\rb\""),
    ("\"a\tb\"", "\"a\tb\""),
    ("\"\\t\"", "bad token, line 5"),
    ("\"\\", "bad token, line 5"),
    ("\"a", "bad token, line 5"),
    ("a\n\"a\nb\"", "bad token, line 6"),
    ("a\n\"a\r\nb\"", "bad token, line 6"),
    ("a // b \"", "a"),
    ("//", ""),
    ("a/* b */c", "a c"),
    ("a/**/b", "a b"),
    ("a/*/ */b", "a b"),
    ("/* a /* b */ c", "c"),
    ("a /* x\n// */ b", "a b"),
    ("a\n\n/* b", "bad token, line 7"),
    ("/* a\n*/\n;", "bad token, line 7"),
    ("a\tb\r\n\r\n c\r", "a b c"),
    ("a\rb", "bad token, line 5"),
    ("&", "bad token, line 5"),
    ("/", "bad token, line 5"),
    (";", "bad token, line 5"),
    ("é", "bad token, line 5"),
    ("", ""),
];

#[test]
fn each_form_is_read(rt: HostRuntime) -> Result<(), Fail> {
    let alloc = rt.alloc();
    for (line, want) in ROWS {
        let document = format!(in alloc; "---\npolicy-version: 2\n---\n```policy\n{line}\n```\n")?;
        let found = shown(alloc, document.as_str())?;
        assert!(rt; found.as_str() == want, "{line}: {}", found.as_str());
    }
    Ok(())
}

const PLACES: &str = "---\npolicy-version: 2\n---\n```policy\nab\r\n\"é\" =>\n```\n";

// The lines and the places of the three tokens of `PLACES`.
#[test]
fn tokens_have_their_places(rt: HostRuntime) -> Result<(), Fail> {
    let found = tokens(rt.alloc(), PLACES.as_bytes())?;
    assert!(rt; found.len() == 3);
    for (i, token) in found.as_slice().iter().enumerate() {
        let (line, start, end) = match i {
            0 => (5, 36, 38),
            1 => (6, 40, 44),
            _ => (6, 45, 47),
        };
        assert!(rt;
            token.line == line && token.start == start && token.end == end,
            "token {i}"
        );
    }
    Ok(())
}
