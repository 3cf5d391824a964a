use crate::page::Page;
use crate::shown::script_shown;
use base_bytes::NoMemory;
use std::alloc::Global;
use std::test::*;

// Arguments, and how they are printed.
const ARGUMENTS: [(&str, &str); 42] = [
    ("", ""),
    ("0", "0"),
    ("-0", "0"),
    ("007", "7"),
    ("-12", "-12"),
    ("9223372036854775807", "9223372036854775807"),
    ("-9223372036854775808", "-9223372036854775808"),
    ("true", "true"),
    ("false", "false"),
    ("None", "None"),
    ("\"\"", "\"\""),
    ("\"plan\"", "\"plan\""),
    ("\" ,)\t \"", "\" ,)\t \""),
    ("\"\\\\ \\\" \\n\"", "\"\\\\ \\\" \\n\""),
    ("\"ä€😀\"", "\"ä€😀\""),
    ("0x", "0x"),
    ("0x00fF", "0x00ff"),
    (
        "id:000102030405060708090a0b0c0d0e0f101112131415161718191a1b1c1d1e1f",
        "id:000102030405060708090a0b0c0d0e0f101112131415161718191a1b1c1d1e1f",
    ),
    (
        "id:A0A1A2A3A4A5A6A7A8A9AAABACADAEAFB0B1B2B3B4B5B6B7B8B9BABBBCBDBEBF",
        "id:a0a1a2a3a4a5a6a7a8a9aaabacadaeafb0b1b2b3b4b5b6b7b8b9babbbcbdbebf",
    ),
    (
        "@a",
        "id:58f468f820d490d5fadd64f8a6425a391cd001765dc4edd9dff0b5f3fadc4a96",
    ),
    (
        "@a_9",
        "id:0092b3fe514a3b6f157ca986b328168e0bf730e08cac1007c46e49cc3511e623",
    ),
    ("Role::Owner", "Role::Owner"),
    ("true::None", "true::None"),
    ("id::x", "id::x"),
    ("Some::x", "Some::x"),
    ("use::a", "use::a"),
    ("Some(1)", "Some(1)"),
    (" Some ( Some ( None ) ) ", "Some(Some(None))"),
    ("P {}", "P {}"),
    ("P{}", "P {}"),
    (" P { } ", "P {}"),
    ("P{a:1}", "P { a: 1 }"),
    (
        " P { a : 1 , b : Q { c : 0x } } ",
        "P { a: 1, b: Q { c: 0x } }",
    ),
    (
        "id { id: id:000102030405060708090a0b0c0d0e0f101112131415161718191a1b1c1d1e1f }",
        "id { id: id:000102030405060708090a0b0c0d0e0f101112131415161718191a1b1c1d1e1f }",
    ),
    ("true { true: true }", "true { true: true }"),
    ("None { None: None }", "None { None: None }"),
    ("Some {}", "Some {}"),
    ("1, 2,3 ,4", "1, 2, 3, 4"),
    ("P { a: 1, a: 2 }", "P { a: 1, a: 2 }"),
    (
        "wwwwwwwwwwwwwwwwwwwwwwwwwwwwwwwwwwwwwwwwwwwwwwwwwwwwwwwwwwwwwwww::x",
        "wwwwwwwwwwwwwwwwwwwwwwwwwwwwwwwwwwwwwwwwwwwwwwwwwwwwwwwwwwwwwwww::x",
    ),
    (
        "Some(Some(Some(Some(Some(Some(Some(Some(Some(Some(Some(Some(Some(Some(Some(Some(Some(Some(Some(Some(Some(Some(Some(Some(Some(Some(Some(Some(Some(Some(Some(Some(Some(Some(Some(Some(Some(Some(Some(Some(Some(Some(Some(Some(Some(Some(Some(Some(Some(Some(Some(Some(Some(Some(Some(Some(Some(Some(Some(Some(Some(Some(Some(1)))))))))))))))))))))))))))))))))))))))))))))))))))))))))))))))",
        "Some(Some(Some(Some(Some(Some(Some(Some(Some(Some(Some(Some(Some(Some(Some(Some(Some(Some(Some(Some(Some(Some(Some(Some(Some(Some(Some(Some(Some(Some(Some(Some(Some(Some(Some(Some(Some(Some(Some(Some(Some(Some(Some(Some(Some(Some(Some(Some(Some(Some(Some(Some(Some(Some(Some(Some(Some(Some(Some(Some(Some(Some(Some(1)))))))))))))))))))))))))))))))))))))))))))))))))))))))))))))))",
    ),
    (
        "S { f: S { f: S { f: S { f: S { f: S { f: S { f: S { f: S { f: S { f: S { f: S { f: S { f: S { f: S { f: S { f: S { f: S { f: S { f: S { f: S { f: S { f: S { f: S { f: S { f: S { f: S { f: S { f: S { f: S { f: S { f: S { f: S { f: S { f: S { f: S { f: S { f: S { f: S { f: S { f: S { f: S { f: S { f: S { f: S { f: S { f: S { f: S { f: S { f: S { f: S { f: S { f: S { f: S { f: S { f: S { f: S { f: S { f: S { f: S { f: S { f: S { f: S { f: 1 } } } } } } } } } } } } } } } } } } } } } } } } } } } } } } } } } } } } } } } } } } } } } } } } } } } } } } } } } } } } } } }",
        "S { f: S { f: S { f: S { f: S { f: S { f: S { f: S { f: S { f: S { f: S { f: S { f: S { f: S { f: S { f: S { f: S { f: S { f: S { f: S { f: S { f: S { f: S { f: S { f: S { f: S { f: S { f: S { f: S { f: S { f: S { f: S { f: S { f: S { f: S { f: S { f: S { f: S { f: S { f: S { f: S { f: S { f: S { f: S { f: S { f: S { f: S { f: S { f: S { f: S { f: S { f: S { f: S { f: S { f: S { f: S { f: S { f: S { f: S { f: S { f: S { f: S { f: S { f: 1 } } } } } } } } } } } } } } } } } } } } } } } } } } } } } } } } } } } } } } } } } } } } } } } } } } } } } } } } } } } } } } }",
    ),
];

// What no list of arguments is.
const NONE: [&str; 75] = [
    "-",
    "- 1",
    "+1",
    "1.0",
    "9223372036854775808",
    "-9223372036854775809",
    "12ab",
    "1 2",
    "1,",
    "1,,2",
    ",1",
    "True",
    "nil",
    "id",
    "x",
    "trues",
    "true false",
    "truex::",
    "Role::",
    "::Owner",
    "Role ::Owner",
    "Role:: Owner",
    "Role::Owner::x",
    "a:1",
    "\"",
    "\"a",
    "\"a\\\"",
    "\"a\\x\"",
    "\"a\" \"b\"",
    "'a'",
    "0x0",
    "0x0g",
    "0x 00",
    "0X00",
    "0x00 00",
    "id:",
    "id:00",
    "id:000102030405060708090a0b0c0d0e0f101112131415161718191a1b1c1d1e1f00",
    "id:000102030405060708090a0b0c0d0e0f101112131415161718191a1b1c1d1e1",
    "id: 000102030405060708090a0b0c0d0e0f101112131415161718191a1b1c1d1e1f",
    "ID:000102030405060708090a0b0c0d0e0f101112131415161718191a1b1c1d1e1f",
    "@",
    "@A",
    "@ a",
    "@abcdefghijklmnopq",
    "@a b",
    "Some",
    "Some()",
    "Some(1",
    "Some(1,)",
    "Some(1,2)",
    "Some 1",
    "Other(1)",
    "some(1)",
    "None()",
    "Some()()",
    "P {",
    "P }",
    "P { a }",
    "P { a: }",
    "P { a: 1, }",
    "P { , }",
    "P { a: 1 b: 2 }",
    "P { 1: 1 }",
    "P { a:: 1 }",
    "P {} {}",
    "P { a: 1",
    "P (a: 1)",
    "P { a::b: 1 }",
    "[1]",
    "wwwwwwwwwwwwwwwwwwwwwwwwwwwwwwwwwwwwwwwwwwwwwwwwwwwwwwwwwwwwwwwww::x",
    "x::wwwwwwwwwwwwwwwwwwwwwwwwwwwwwwwwwwwwwwwwwwwwwwwwwwwwwwwwwwwwwwwww",
    "Some(Some(Some(Some(Some(Some(Some(Some(Some(Some(Some(Some(Some(Some(Some(Some(Some(Some(Some(Some(Some(Some(Some(Some(Some(Some(Some(Some(Some(Some(Some(Some(Some(Some(Some(Some(Some(Some(Some(Some(Some(Some(Some(Some(Some(Some(Some(Some(Some(Some(Some(Some(Some(Some(Some(Some(Some(Some(Some(Some(Some(Some(Some(Some(1))))))))))))))))))))))))))))))))))))))))))))))))))))))))))))))))",
    "S { f: Some(Some(Some(Some(Some(Some(Some(Some(Some(Some(Some(Some(Some(Some(Some(Some(Some(Some(Some(Some(Some(Some(Some(Some(Some(Some(Some(Some(Some(Some(Some(Some(Some(Some(Some(Some(Some(Some(Some(Some(Some(Some(Some(Some(Some(Some(Some(Some(Some(Some(Some(Some(Some(Some(Some(Some(Some(Some(Some(Some(Some(Some(Some(1))))))))))))))))))))))))))))))))))))))))))))))))))))))))))))))) }",
    "S { f: S { f: S { f: S { f: S { f: S { f: S { f: S { f: S { f: S { f: S { f: S { f: S { f: S { f: S { f: S { f: S { f: S { f: S { f: S { f: S { f: S { f: S { f: S { f: S { f: S { f: S { f: S { f: S { f: S { f: S { f: S { f: S { f: S { f: S { f: S { f: S { f: S { f: S { f: S { f: S { f: S { f: S { f: S { f: S { f: S { f: S { f: S { f: S { f: S { f: S { f: S { f: S { f: S { f: S { f: S { f: S { f: S { f: S { f: S { f: S { f: S { f: S { f: S { f: 1 } } } } } } } } } } } } } } } } } } } } } } } } } } } } } } } } } } } } } } } } } } } } } } } } } } } } } } } } } } } } } } } }",
];

fn joined(alloc: Global, front: &str, middle: &str, back: &str) -> Result<String, NoMemory> {
    let mut page = Page::new(alloc);
    page.put(front);
    page.put(middle);
    page.put(back);
    page.into_text()
}

// Read once as they are written here, and once more as they are printed.
#[test]
fn arguments_are_read(rt: HostRuntime) -> Result<(), Fail> {
    let alloc = rt.alloc();
    for (arguments, printed) in ARGUMENTS {
        let want = joined(alloc, "replica a;act a f(", printed, ")")?;
        let script = joined(alloc, "replica a\nact a f(", arguments, ")\n")?;
        let found = script_shown(alloc, script.as_bytes())?;
        assert!(rt;
            found.as_str() == want.as_str(),
            "{arguments}: {}",
            found.as_str()
        );
        let again = joined(alloc, "replica a\nact a f(", printed, ")\n")?;
        let found = script_shown(alloc, again.as_bytes())?;
        assert!(rt;
            found.as_str() == want.as_str(),
            "{printed}: {}",
            found.as_str()
        );
    }
    Ok(())
}

#[test]
fn other_arguments_are_refused(rt: HostRuntime) -> Result<(), Fail> {
    let alloc = rt.alloc();
    for arguments in NONE {
        let script = joined(alloc, "replica a\nact a f(", arguments, ")\n")?;
        let found = script_shown(alloc, script.as_bytes())?;
        assert!(rt;
            found.as_str() == "refused 2",
            "{arguments}: {}",
            found.as_str()
        );
    }
    Ok(())
}
