//! How high a tree may be: with 64 nodes on one path it is taken, and with 65 it is refused.

use crate::page::Page;
use crate::read::block_shown;
use base_bytes::NoMemory;
use std::alloc::Global;
use std::test::*;

// Each line is an item of 64 nodes: how often a part of it is repeated, what stands before, what opens the part, what stands
// inside, what closes the part, and what stands behind.
const TOWERS: &str = "61~action a() { check ~(~x~)~ }
61~action a() { check x~ || x~~~ }
61~action a() { check x~ && x~~~ }
61~action a() { check x~.f~~~ }
61~action a() { check ~!~x~~ }
61~action a() { check ~unwrap ~x~~ }
61~action a() { check ~Some(~x~)~ }
61~action a() { check ~f(~x~)~ }
61~action a() { check ~m::f(1, ~x~)~ }
61~action a() { check ~S { a: ~x~ }~ }
61~action a() { check ~add(1, ~x~)~ }
61~action a() { check ~exists F[a: ~x~]~ }
61~action a() { check ~at_least 1 F[]=>{a: ~x~}~ }
60~action a() { check x == ~(~x~)~ }
60~action a() { check ~(~x is None~)~ }
61~action a() { check ~if x { : ~x~ } else { : x }~ }
60~action a() { check if x { : x }~ else if x { : x }~ else { : x }~~ }
59~action a() { check if x { let y = ~(~x~)~ : x } else { : x } }
62~action a() { ~if x { ~~ } ~ }
61~action a() { if x { }~ else if x { }~~~ }
62~action a() { ~match x { _ => { ~~ } } ~ }
63~action a() { ~map F[] as r { ~~ } ~ }
61~action a() { let y = ~(~x~)~ }
60~action a() { finish { emit ~(~x~)~ } }
61~finish function f() { g(~(~x~)~) }
62~struct S { f ~optional ~int~~ }
62~fact F[]=>{f ~optional ~enum E~~ }
62~function f() ~optional ~int~~ { }
61~command C { fields { f ~optional ~int~~ } }
60~command C { policy { check ~(~x~)~ } }";

// What comes of an item with its part repeated so often.
fn tower_shown(alloc: Global, row: &str, times: usize) -> Result<String, NoMemory> {
    let mut parts = row.split("~").skip(1);
    let front = parts.next().unwrap_or("");
    let opened = parts.next().unwrap_or("");
    let middle = parts.next().unwrap_or("");
    let closed = parts.next().unwrap_or("");
    let back = parts.next().unwrap_or("");
    let mut page = Page::new(alloc);
    for _ in 0..times {
        page.put(opened);
    }
    page.put(middle);
    for _ in 0..times {
        page.put(closed);
    }
    let item = page.into_text()?;
    block_shown(alloc, front, item.as_str(), back)
}

#[test]
fn trees_have_at_most_64_nodes_on_a_path(rt: HostRuntime) -> Result<(), Fail> {
    for row in TOWERS.lines() {
        let (times, _) = row.split_once("~").unwrap_or((row, ""));
        let times: u8 = times.parse()?;
        let taken = tower_shown(rt.alloc(), row, times as usize)?;
        assert!(rt; taken.as_str() != "syntax, line 5", "{row}");
        let refused = tower_shown(rt.alloc(), row, times as usize + 1)?;
        assert!(rt; refused.as_str() == "syntax, line 5", "{row}");
    }
    Ok(())
}
