//! What is read, against trees written by hand: with parentheses round each expression that has parts and no brackets of
//! its own, and with `; ` between items, sections, statements and arms.

use crate::read::{block_shown, joined};
use std::test::*;

// Expressions, which stand behind `check`.
const EXPRESSIONS: &str = r#"a -> a
(a) -> a
((a)) -> a
-7 -> -7
true -> true
false -> false
E::V -> E::V
None -> None
Some(None) -> Some(None)
this.a -> (this.a)
a || b || c -> ((a || b) || c)
a || (b || c) -> (a || (b || c))
a && b && c -> ((a && b) && c)
a && (b && c) -> (a && (b && c))
a || b && c -> (a || (b && c))
a && b || c -> ((a && b) || c)
(a || b) && c -> ((a || b) && c)
a == b && c != d -> ((a == b) && (c != d))
a < b || c <= d -> ((a < b) || (c <= d))
a > b || c >= d -> ((a > b) || (c >= d))
(a == b) == c -> ((a == b) == c)
a == (b == c) -> (a == (b == c))
!a == !b -> ((!a) == (!b))
!!a -> (!(!a))
!(a == b) -> (!(a == b))
unwrap a.b -> (unwrap (a.b))
(unwrap a).b -> ((unwrap a).b)
unwrap check_unwrap a -> (unwrap (check_unwrap a))
a.b.c -> ((a.b).c)
E::V.a -> (E::V.a)
S { a: b }.a -> (S {a: b}.a)
a is Some && b is None -> ((a is Some) && (b is None))
unwrap a is None -> ((unwrap a) is None)
f() -> f()
f(a, b || c) -> f(a, (b || c))
f(a, b,) -> f(a, b)
m::f() -> m::f()
m::f(a, E::V,) -> m::f(a, E::V)
S { } -> S {}
S { a: b, c: T { d: e }, } -> S {a: b, c: T {d: e}}
add(a, 1) is None -> ((add a, 1) is None)
sub(a, (b)) -> (sub a, b)
saturating_add(a, saturating_sub(b, c)) -> (saturating_add a, (saturating_sub b, c))
query F[] -> (query F[])
exists F[]=>{} -> (exists F[]=>{})
unwrap query F[a: ?]=>{b: c}.d -> (unwrap ((query F[a: ?]=>{b: c}).d))
unwrap query F[a: ?, b: c || d,]=>{e: f, g: ?,} -> (unwrap (query F[a: ?, b: (c || d)]=>{e: f, g: ?}))
at_least 1 F[a: b] -> (at_least 1 F[a: b])
at_most 2 F[] || exactly 3 F[] -> ((at_most 2 F[]) || (exactly 3 F[]))
count_up_to -4 F[] == 5 -> ((count_up_to -4 F[]) == 5)
if a { : b } else { : c } -> (if a {: b} else {: c})
if a { let b = c let d = e : b } else if f { : d } else { : g } -> (if a {let b = c; let d = e; : b} else (if f {: d} else {: g}))
if a { : b } else { : if c { : d } else { : e } } -> (if a {: b} else {: (if c {: d} else {: e})})
if f(S { }) && (T { }) == a { : S { } } else { : b } -> (if (f(S {}) && (T {} == a)) {: S {}} else {: b})
if exists F[a: S { }]=>{b: T { }} { : a } else { : b } == c -> ((if (exists F[a: S {}]=>{b: T {}}) {: a} else {: b}) == c)
"a\\b" -> "a\b""#;

// Statements of an action.
const STATEMENTS: &str = r#"let a = b -> let a = b
let a = b check c publish d return e -> let a = b; check c; publish d; return e
check S { a: b } publish S { } -> check S {a: b}; publish S {}
check a if b { } -> check a; if b {}
if a { } -> if a {}
if (a) { check b } else { } -> if a {check b} else {}
if a { } else if b { } else if c { } else { check d } -> if a {} else if b {} else if c {} else {check d}
if a { } else { if b { } else { } } -> if a {} else {if b {} else {}}
if a { if b { } else { check c } } -> if a {if b {} else {check c}}
if if a { : b } else { : c } { } -> if (if a {: b} else {: c}) {}
if (S { }) == a { } -> if (S {} == a) {}
match a { } -> match a {}
match a { 1 | -2 => { } "b" => { check c }, None | E::V => { } _ => { }, } -> match a {1 | -2 => {}; "b" => {check c}; None | E::V => {}; _ => {}}
match f(S { }) { true | false => { match a { _ => { } } } } -> match f(S {}) {true | false => {match a {_ => {}}}}
map F[a: ?, b: c]=>{d: ?} as r { check r.a map G[] as s { } } -> map F[a: ?, b: c]=>{d: ?} as r {check (r.a); map G[] as s {}}
finish { } -> finish {}
finish { create F[a: b, c: d,]=>{e: f} create G[]=>{} } -> finish {create F[a: b, c: d]=>{e: f}; create G[]=>{}}
finish { update F[a: b]=>{c: ?, d: e} to {f: g, h: i,} update G[] to {} } -> finish {update F[a: b]=>{c: ?, d: e} to {f: g, h: i}; update G[] to {}}
finish { delete F[a: b] delete G[] } -> finish {delete F[a: b]; delete G[]}
finish { emit S { a: b } emit c f() g(d, e,) } -> finish {emit S {a: b}; emit c; f(); g(d, e)}"#;

// Items, one or more of them.
const ITEMS: &str = r#"use a use b -> use a; use b
let a = 1 let b = E::V -> let a = 1; let b = E::V
let a = "" let b = true -> let a = ""; let b = true
enum E { A, B } -> enum E {A, B}
enum E { A, B, } enum F { } -> enum E {A, B}; enum F {}
struct S { a int, b bool, c string, d bytes, e id } -> struct S {a int, b bool, c string, d bytes, e id}
struct S { a enum E, b struct T, c optional optional int, } -> struct S {a enum E, b struct T, c optional optional int}
effect E { a int, b id dynamic, c int, } effect F { } -> effect E {a int, b id dynamic, c int}; effect F {}
fact F[]=>{} fact G[a int, b id,]=>{c bool,} -> fact F[]=>{}; fact G[a int, b id]=>{c bool}
immutable fact F[a int]=>{} -> immutable fact F[a int]=>{}
command C { } -> command C {}
command C { attributes { init: true, priority: 5, } attributes { } } -> command C {attributes {init: true, priority: 5}; attributes {}}
command C { fields { a int, b id, } fields { } } -> command C {fields {a int, b id}; fields {}}
command C { open { return deserialize(envelope::do_open(envelope)) } } -> command C {open}
command C { seal { return envelope::do_seal(serialize(this)) } } -> command C {seal}
command C { policy { check a } recall { } } -> command C {policy {check a}; recall {}}
function f(a int, b id,) optional int { return a } function g() id { } -> function f(a int, b id) optional int {return a}; function g() id {}
finish function f(a int) { emit E { b: a } } finish function g() { } -> finish function f(a int) {emit E {b: a}}; finish function g() {}
action f(a int) { publish C { b: a } } action g() { } -> action f(a int) {publish C {b: a}}; action g() {}
use int let policy = 1 -> use int; let policy = 1"#;

/// What a row has on either side of its arrow.
fn sides(row: &str) -> (&str, &str) {
    row.split_once(" -> ").unwrap_or((row, "no arrow"))
}

#[test]
fn each_expression_has_its_tree(rt: HostRuntime) -> Result<(), Fail> {
    for row in EXPRESSIONS.lines() {
        let (source, want) = sides(row);
        let found = block_shown(rt.alloc(), "action a() { check ", source, " }")?;
        let want = joined(rt.alloc(), "action a() {check ", want, "}")?;
        assert!(rt;
            found.as_str() == want.as_str(),
            "{row}: {}",
            found.as_str()
        );
    }
    Ok(())
}

#[test]
fn each_statement_has_its_tree(rt: HostRuntime) -> Result<(), Fail> {
    for row in STATEMENTS.lines() {
        let (source, want) = sides(row);
        let found = block_shown(rt.alloc(), "action a() { ", source, " }")?;
        let want = joined(rt.alloc(), "action a() {", want, "}")?;
        assert!(rt;
            found.as_str() == want.as_str(),
            "{row}: {}",
            found.as_str()
        );
    }
    Ok(())
}

#[test]
fn each_item_has_its_tree(rt: HostRuntime) -> Result<(), Fail> {
    for row in ITEMS.lines() {
        let (source, want) = sides(row);
        let found = block_shown(rt.alloc(), "", source, "")?;
        assert!(rt; found.as_str() == want, "{row}: {}", found.as_str());
    }
    Ok(())
}
