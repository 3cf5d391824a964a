//! What is no expression and no statement.

use crate::read::block_shown;
use std::test::*;

// None of these lines is an expression. Each stands behind `check` in an action that begins on line 6.
const NO_EXPRESSIONS: &str = "a ||
|| a
a || || b
a &&
&& a
a | b
a b
a ==
== a
a < b < c
a == b != c
a is
a is b
is Some
a is Some is None
a = b
!
a !
unwrap
a.
a.1
a.if
.a
let
E::
E::1
::V
E::V::W
None()
Some
Some a
Some()
Some(a, b)
this()
()
(a
a)
(a, b)
m::f(a
m::f(a b)
m::if(a)
f(a
f(,)
f(a,, b)
f(a)(b)
S { a }
S { a: }
S { a: ? }
S { , }
S { a: b c: d }
S { if: a }
add
add a, b
add(a)
add(a, b, c)
add(a, b,)
sub(, a)
saturating_add()
saturating_sub(a b)
query
query a
query f(a)
query m::F[]
exists F
exists F[
exists F{ }
exists F[a]
exists F[?]
exists F[a ?]
exists F[a: ? b: ?]
exists F[,]
exists F[]=>
exists F[]=>[]
exists F[]=>{a}
exists (F[])
at_least F[]
at_least 1
at_least a F[]
at_most 1 2 F[]
exactly (1) F[]
count_up_to 1 a
if
if a
if { : a } else { : b }
if a { : b }
if a { b } else { c }
if a { : } else { : b }
if a : b else : c
if a { : b } else
if a { : b } else c
if a { : b } else !if c { : d } else { : e }
if a { let b = c } else { : d }
if a { check b : c } else { : d }
if a { : b } else { : c, }
if a { let b : c } else { : d }
if S { } { : a } else { : b }
if a == S { } { : b } else { : c }
if !S { } { : a } else { : b }
if a || S { b: c } { : d } else { : e }";

// None of these lines is a list of statements. Each stands in an action that begins on line 6.
const NO_STATEMENTS: &str = "a
f()
let
let a
let a =
let 1 = a
let this = a
let a == b
check
check check a
publish
return
return publish a
emit a
create F[]=>{}
delete F[]
if
if a
if { }
if a check b
if a { } else
if a { } else check b
else { }
if a { } else { } else { }
if S { } { }
if a { }, if b { }
match
match a
match { }
match S { } { }
match a { 1 }
match a { 1 => }
match a { 1 => check b }
match a { => { } }
match a { 1, 2 => { } }
match a { 1 | => { } }
match a { | 1 => { } }
match a { _ | 1 => { } }
match a { 1 | _ => { } }
match a { 1 => { },, }
match a { , }
match a { b => { } }
match a { Some => { } }
match a { E:: => { } }
match a { (1) => { } }
map
map F[]
map F[] as
map F[] as r
map F[] r { }
map F[] as if { }
map F[] as r check a
map F as r { }
map (F[]) as r { }
{ }
check a {
if a { check b
finish
finish create F[]=>{}
finish { check a }
finish { let a = b }
finish { f }
finish { f( }
finish { f(a b) }
finish { m::f() }
finish { create }
finish { create F }
finish { create F[] }
finish { create F[]=>a }
finish { create F[a: ?]=>{} }
finish { create F[]=>{b: ?} }
finish { create F[a b]=>{} }
finish { create F[] {} }
finish { update }
finish { update F[] }
finish { update F[] to }
finish { update F[] {} }
finish { update F[] to {a: ?} }
finish { update F to {} }
finish { update F[]=>to {} }
finish { delete }
finish { delete F }
finish { delete F[a: ?] }
finish { delete F[]=>{} }
finish { emit }
finish { emit emit a }
finish { emit a, emit b }
finish { publish a }";

#[test]
fn what_is_no_expression_is_refused(rt: HostRuntime) -> Result<(), Fail> {
    for source in NO_EXPRESSIONS.lines() {
        let front = "use u\naction a() { check\n";
        let found = block_shown(rt.alloc(), front, source, "\n}\nuse v")?;
        assert!(rt;
            found.as_str() == "syntax, line 6",
            "{source}: {}",
            found.as_str()
        );
    }
    Ok(())
}

#[test]
fn what_is_no_statement_is_refused(rt: HostRuntime) -> Result<(), Fail> {
    for source in NO_STATEMENTS.lines() {
        let front = "use u\naction a() {\n";
        let found = block_shown(rt.alloc(), front, source, "\n}\nuse v")?;
        assert!(rt;
            found.as_str() == "syntax, line 6",
            "{source}: {}",
            found.as_str()
        );
    }
    Ok(())
}
