//! Limits on numbers: of fields, of variants, of structs that nest and of calls in a chain.

use crate::table::verdict;
use base_bytes::NoMemory;
use language_tests::Page;
use std::alloc::Global;
use std::test::*;

/// An item with a list of so many parts between a front and a back.
struct Listed {
    front: &'static str,
    suffix: &'static str,
    back: &'static str,
}

const LISTS: [Listed; 9] = [
    Listed {
        front: "struct S { ",
        suffix: " int",
        back: " }",
    },
    Listed {
        front: "effect S { ",
        suffix: " int dynamic",
        back: " }",
    },
    Listed {
        front: "fact S[",
        suffix: " int",
        back: "]=>{}",
    },
    Listed {
        front: "fact S[]=>{",
        suffix: " int",
        back: "}",
    },
    Listed {
        front: "action a(",
        suffix: " int",
        back: ") { }",
    },
    Listed {
        front: "function f(",
        suffix: " int",
        back: ") int { return 1 }",
    },
    Listed {
        front: "finish function f(",
        suffix: " int",
        back: ") { }",
    },
    Listed {
        front: "command C { SEAL OPEN policy { } fields { ",
        suffix: " int",
        back: " } }",
    },
    Listed {
        front: "enum S { ",
        suffix: "",
        back: " }",
    },
];

/// Items in a line each. Each but the last has the number of the next one in its middle, and the last has another back.
struct Chained {
    front: &'static str,
    middle: &'static str,
    back: &'static str,
    last: &'static str,
}

const CHAINS: [Chained; 5] = [
    Chained {
        front: "struct S",
        middle: " { s struct S",
        back: " }",
        last: " { }",
    },
    Chained {
        front: "struct S",
        middle: " { n int, s optional optional struct S",
        back: " }",
        last: " { }",
    },
    Chained {
        front: "function f",
        middle: "() bool { return f",
        back: "() }",
        last: "() bool { return true }",
    },
    Chained {
        front: "function f",
        middle: "() bool { if true { check f",
        back: "() } return true }",
        last: "() bool { return true }",
    },
    Chained {
        front: "finish function f",
        middle: "() { f",
        back: "() }",
        last: "() { }",
    },
];

fn verdict_of_list(alloc: Global, it: &Listed, count: usize) -> Result<String, NoMemory> {
    let mut page = Page::new(alloc);
    page.put(it.front);
    for i in 0..count {
        page.put_between(i == 0, ", ");
        page.put("a");
        page.put_count(i);
        page.put(it.suffix);
    }
    page.put(it.back);
    verdict(alloc, page.into_text()?.as_str())
}

fn verdict_of_chain(alloc: Global, it: &Chained, count: usize) -> Result<String, NoMemory> {
    let mut page = Page::new(alloc);
    for i in 0..count {
        page.put(it.front);
        page.put_count(i);
        if i + 1 < count {
            page.put(it.middle);
            page.put_count(i + 1);
            page.put(it.back);
        } else {
            page.put(it.last);
        }
        page.put("\n");
    }
    verdict(alloc, page.into_text()?.as_str())
}

#[test]
fn lists_have_their_limits(rt: HostRuntime) -> Result<(), Fail> {
    for (row, count, want) in [
        (0, 64, "ok 1"),
        (0, 65, "type, line 5"),
        (1, 64, "ok 1"),
        (1, 65, "type, line 5"),
        (2, 64, "ok 1"),
        (2, 65, "type, line 5"),
        (3, 64, "ok 1"),
        (3, 65, "type, line 5"),
        (4, 64, "ok 1"),
        (4, 65, "type, line 5"),
        (5, 64, "ok 1"),
        (5, 65, "type, line 5"),
        (6, 64, "ok 1"),
        (6, 65, "type, line 5"),
        (7, 64, "ok 1"),
        (7, 65, "type, line 5"),
        (8, 1024, "ok 1"),
        (8, 1025, "type, line 5"),
    ] {
        let found = verdict_of_list(rt.alloc(), &LISTS[row], count)?;
        assert!(rt; found.as_str() == want, "{row} {count}: {}", found.as_str());
    }
    Ok(())
}

// A chain of n calls takes n + 1 functions.
#[test]
fn chains_have_their_limits(rt: HostRuntime) -> Result<(), Fail> {
    for (row, count, want) in [
        (0, 8, "ok 8"),
        (0, 9, "type, line 5"),
        (1, 8, "ok 8"),
        (1, 9, "type, line 5"),
        (2, 17, "ok 17"),
        (2, 18, "type, line 5"),
        (3, 17, "ok 17"),
        (3, 18, "type, line 5"),
        (4, 17, "ok 17"),
        (4, 18, "type, line 5"),
    ] {
        let found = verdict_of_chain(rt.alloc(), &CHAINS[row], count)?;
        assert!(rt; found.as_str() == want, "{row} {count}: {}", found.as_str());
    }
    Ok(())
}
