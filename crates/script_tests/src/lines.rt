use crate::shown::script_shown;
use std::test::*;

// Scripts, and what they are read as.
const FORMS: [(&str, &str); 20] = [
    ("", ""),
    ("replica a\n", "replica a"),
    ("replica a", "replica a"),
    ("\n", "-"),
    ("\n\n", "-;-"),
    ("   ", "-"),
    ("\n \n   \r\n#\n#x y\n# ä\t\r\n", "-;-;-;-;-;-"),
    ("  replica   a  \n", "replica a"),
    ("replica a\r\nreplica b\r\n", "replica a;replica b"),
    (
        "replica a\n\nreplica b\n#\nask b",
        "replica a;-;replica b;-;ask b",
    ),
    (
        "replica _\nreplica 0\nreplica a_9\nreplica abcdefghijklmnop\n",
        "replica _;replica 0;replica a_9;replica abcdefghijklmnop",
    ),
    (
        "replica a\nreplica b\ninit a begin()\nact a low(5)\n",
        "replica a;replica b;init a begin();act a low(5)",
    ),
    (
        "replica a\nreplica b\n init  a  begin  (  )  \n act  a  low  (  5  ,  6  )  \n",
        "replica a;replica b;init a begin();act a low(5, 6)",
    ),
    (
        "replica a\nreplica b\ninit a A_1(1,2)\n",
        "replica a;replica b;init a A_1(1, 2)",
    ),
    (
        "replica a\nreplica b\njoin a b\n join  a  a \nsync a b\n  sync  b  b  \n",
        "replica a;replica b;join a b;join a a;sync a b;sync b b",
    ),
    (
        "replica a\nreplica b\nask a\nnext b 1\nanswer a 2\ntake b 3\ninject 0aBc\ntake a 4\n",
        "replica a;replica b;ask a;next b 1;answer a 2;take b 3;inject 0abc;take a 4",
    ),
    (
        "replica a\nreplica b\n  ask  a  \n next  a  1 \n answer  a  1  \n take  a  1 \n inject  FF  \n",
        "replica a;replica b;ask a;next a 1;answer a 1;take a 1;inject ff",
    ),
    (
        "replica a\nreplica b\nrestart a\nfacts a\neffects b\ngraph b\n",
        "replica a;replica b;restart a;facts a;effects b;graph b",
    ),
    (
        "replica a\nreplica b\n restart  a \n facts  a  \n effects  a \n graph  a \n",
        "replica a;replica b;restart a;facts a;effects a;graph a",
    ),
    (
        "inject 00\nreplica a\ntake a 1\n",
        "inject 00;replica a;take a 1",
    ),
];

// Scripts with a line that is none, that names what no earlier line declares, or that declares a name twice.
const REFUSED: [(&str, &str); 36] = [
    ("replica\n", "refused 1"),
    ("replica A\n", "refused 1"),
    ("replica a-b\n", "refused 1"),
    ("replica abcdefghijklmnopq\n", "refused 1"),
    ("replica a b\n", "refused 1"),
    ("replica a #\n", "refused 1"),
    (" # x\n", "refused 1"),
    ("Replica a\n", "refused 1"),
    ("replicas a\n", "refused 1"),
    ("replica\ta\n", "refused 1"),
    ("replica a\t\n", "refused 1"),
    ("\t\n", "refused 1"),
    ("\r\r\n", "refused 1"),
    ("replica a\r", "refused 1"),
    ("replica a\n\r", "refused 2"),
    ("replica ä\n", "refused 1"),
    ("replica a\nreplica a\n", "refused 2"),
    ("ask a\n", "refused 1"),
    ("facts a\nreplica a\n", "refused 1"),
    ("replica a\njoin a b\nreplica b\n", "refused 2"),
    ("replica a\njoin b a\nreplica b\n", "refused 2"),
    ("replica a\nsync a\n", "refused 2"),
    ("replica a\nsync a a a\n", "refused 2"),
    ("replica a\ninit a\n", "refused 2"),
    ("replica a\ninit a begin\n", "refused 2"),
    ("replica a\ninit a begin(\n", "refused 2"),
    ("replica a\ninit a begin)\n", "refused 2"),
    ("replica a\ninit a begin() x\n", "refused 2"),
    ("replica a\ninit a 1()\n", "refused 2"),
    ("replica a\ninit a begin_ä()\n", "refused 2"),
    ("replica a\nact a f(1,)\n", "refused 2"),
    ("replica a\nact a f(,)\n", "refused 2"),
    ("replica a\nact a f(1 2)\n", "refused 2"),
    ("replica a\nact a f(1)(2)\n", "refused 2"),
    ("replica a\nact a f(1,\t2)\n", "refused 2"),
    ("replica a\nact b f()\n", "refused 2"),
];

// Messages: their numbers, and bytes in hex.
const MESSAGES: [(&str, &str); 23] = [
    ("replica a\nask a\ntake a 1\n", "replica a;ask a;take a 1"),
    ("replica a\nask a\ntake a 2\n", "refused 3"),
    ("replica a\nask a\ntake a 0\n", "refused 3"),
    ("replica a\nask a\ntake a 01\n", "refused 3"),
    ("replica a\nask a\ntake a +1\n", "refused 3"),
    ("replica a\nask a\ntake a 1 1\n", "refused 3"),
    ("replica a\nask a\ntake a\n", "refused 3"),
    ("replica a\nask a\ntake a 4294967296\n", "refused 3"),
    ("replica a\nask a\ntake a 4294967297\n", "refused 3"),
    (
        "replica a\nask a\ntake a 99999999999999999999\n",
        "refused 3",
    ),
    ("replica a\nnext a 1\nask a\n", "refused 2"),
    ("replica a\nask a\nnext a 2\n", "refused 3"),
    ("replica a\nask a\nanswer a 2\n", "refused 3"),
    ("replica a\nask a\ntake a 1\ntake a 2\n", "refused 4"),
    ("replica a\nask a\nnext b 1\n", "refused 3"),
    ("replica a\ntake a 1\nask a\n", "refused 2"),
    ("inject\n", "refused 1"),
    ("inject 0\n", "refused 1"),
    ("inject 000\n", "refused 1"),
    ("inject 0g\n", "refused 1"),
    ("inject 0x00\n", "refused 1"),
    ("inject 00 00\n", "refused 1"),
    ("inject 00\nask a\n", "refused 2"),
];

#[test]
fn lines_are_read(rt: HostRuntime) -> Result<(), Fail> {
    let alloc = rt.alloc();
    for (script, want) in FORMS {
        let found = script_shown(alloc, script.as_bytes())?;
        assert!(rt; found.as_str() == want, "{script}: {}", found.as_str());
    }
    Ok(())
}

#[test]
fn other_lines_are_refused(rt: HostRuntime) -> Result<(), Fail> {
    let alloc = rt.alloc();
    for (script, want) in REFUSED {
        let found = script_shown(alloc, script.as_bytes())?;
        assert!(rt; found.as_str() == want, "{script}: {}", found.as_str());
    }
    Ok(())
}

#[test]
fn messages_are_named_by_numbers(rt: HostRuntime) -> Result<(), Fail> {
    let alloc = rt.alloc();
    for (script, want) in MESSAGES {
        let found = script_shown(alloc, script.as_bytes())?;
        assert!(rt; found.as_str() == want, "{script}: {}", found.as_str());
    }
    Ok(())
}

// Each line's bytes are UTF-8, also those of a comment.
#[test]
fn other_bytes_are_refused(rt: HostRuntime) -> Result<(), Fail> {
    let alloc = rt.alloc();
    let comment = script_shown(alloc, b"#\xff\n")?;
    assert!(rt; comment.as_str() == "refused 1");
    let text = script_shown(alloc, b"replica a\nact a f(\"\xc3\")\n")?;
    assert!(rt; text.as_str() == "refused 2");
    Ok(())
}
