//! Broken documents and the lines of their syntax faults: each line is that of the first token behind the whole items.

use crate::read::block_shown;
use std::test::*;

// Behind each `#` what comes of a document that has the text behind it from line 5 on, in its first policy block.
const DOCUMENTS: &str = "# syntax, line 7
enum A { X }
enum B { Y }
enum C { Z
: }
# syntax, line 5
x
# syntax, line 7
use u

x
# syntax, line 5
use u x
use v
# syntax, line 6
use u
use
# syntax, line 6
use u
use
1
# syntax, line 6
use u
use use v
# syntax, line 6
use u
use v,
# syntax, line 6
use u
let
# syntax, line 5
let a
= b
# syntax, line 6
use u
let a 1
# syntax, line 6
let a = 1
2
# syntax, line 6
let a = E::V
::W
# syntax, line 6
let a = E::V
()
# syntax, line 5
let a =
None
# syntax, line 5
let a = E::
1
# syntax, line 5
let a =
(1)
# syntax, line 5
let true = false
# syntax, line 6
use u
enum E
# syntax, line 5
enum { A }
# syntax, line 5
enum E ( A )
# syntax, line 6
use u
enum E { A B }
# syntax, line 5
enum E {
, }
# syntax, line 5
enum E { A,
, }
# syntax, line 5
enum E { A: B }
# syntax, line 5
enum E { if }
# syntax, line 6
enum E { A }
, use u
# syntax, line 5
struct S
# syntax, line 6
use u
struct S {
int }
# syntax, line 5
struct S { a: int }
# syntax, line 5
struct S { a int b int }
# syntax, line 5
struct S { a text }
# syntax, line 5
struct S { a enum }
# syntax, line 5
struct S { a struct if }
# syntax, line 5
struct S { a optional }
# syntax, line 5
struct S { a int optional }
# syntax, line 5
struct S { a E }
# syntax, line 5
struct S { a int dynamic }
# syntax, line 5
struct S { 1 int }
# syntax, line 6
use u
effect E { a dynamic }
# syntax, line 5
effect E { a dynamic int }
# syntax, line 5
effect E { dynamic a int }
# syntax, line 5
effect E { a int dynamic dynamic }
# syntax, line 5
effect E
=> { }
# syntax, line 6
use u
fact F[a int]
# syntax, line 5
fact F[a int] { }
# syntax, line 5
fact F{a int}=>[]
# syntax, line 5
fact F[a]=>{}
# syntax, line 5
fact F[]=>{a int dynamic}
# syntax, line 6
fact F[]=>{}
=>{}
# syntax, line 6
use u
immutable
struct S { }
# syntax, line 5
immutable immutable fact F[]=>{}
# syntax, line 6
use u
fact immutable F[]=>{}
# syntax, line 5
command C
# syntax, line 6
use u
command C()
{ }
# syntax, line 5
command C {
{ }
}
# syntax, line 5
command C { priority: 1 }
# syntax, line 5
command C { fields { }, policy { } }
# syntax, line 6
use u
command C { attributes { init } }
# syntax, line 5
command C { attributes { init: } }
# syntax, line 5
command C { attributes { init: a } }
# syntax, line 5
command C { attributes { init true } }
# syntax, line 5
command C { attributes { init: true priority: 1 } }
# syntax, line 5
command C { attributes }
# syntax, line 5
command C { fields }
# syntax, line 5
command C { fields { int } }
# syntax, line 5
command C { fields { a int dynamic } }
# syntax, line 5
command C { fields (a int) }
# syntax, line 5
command C { seal }
# syntax, line 5
command C { seal { } }
# syntax, line 5
command C { seal { return envelope::do_open(serialize(this)) } }
# syntax, line 5
command C { seal { return envelope::do_seal(this) } }
# syntax, line 5
command C { seal { return envelope::do_seal(serialize((this))) } }
# syntax, line 5
command C { seal { check a return envelope::do_seal(serialize(this)) } }
# syntax, line 5
command C { open { } }
# syntax, line 5
command C { open { return deserialize(envelope::do_open(this)) } }
# syntax, line 5
command C { open { return envelope::do_open(envelope) } }
# syntax, line 5
command C { open { return deserialize(envelope::do_open(envelope)) check a } }
# syntax, line 5
command C { policy }
# syntax, line 5
command C { policy check a }
# syntax, line 6
use u
command C {
policy { check }
}
# syntax, line 5
command C { recall }
# syntax, line 5
command C { recall { emit a } }
# syntax, line 5
command C { policy { } else { } }
# syntax, line 6
use u
function f() { }
# syntax, line 5
function f int { }
# syntax, line 5
function f() text { }
# syntax, line 5
function f() int
# syntax, line 5
function f(a) int { }
# syntax, line 5
function f(a int b int) int { }
# syntax, line 5
function f() int { 1 }
# syntax, line 5
function if() int { }
# syntax, line 7
function f() int { return 1
}
}
# syntax, line 6
use u
finish
function f() int { }
# syntax, line 5
finish f() { }
# syntax, line 5
finish function f() { check a }
# syntax, line 6
use u
finish { }
# syntax, line 5
finish function f() { return a }
# syntax, line 5
finish function f { }
# syntax, line 6
use u
action a { }
# syntax, line 5
action a() int { }
# syntax, line 5
action a()
# syntax, line 5
action a() { check b
# syntax, line 5
action a() check b
# syntax, line 5
action a(1 int) { }
# syntax, line 5
action a::b() { }
# syntax, line 6
use u
action a() {
use v
}
use w
# syntax, line 5
action a() { } {
# syntax, line 7
action a() { }

{
# syntax, line 5
action a() { finish { } finish function f() { } }
# syntax, line 10
use a
```
text
```policy
use b
use
```
```policy
use c
# syntax, line 12
use a
```
```policy
use b
```
```policy
use c
use
# syntax, line 9
use a
```

```policy
}
use b
# syntax, line 13
use a
enum E {
```
```policy
A }
```

```policy
enum F {
```
```policy
A B }
# syntax, line 5
enum E {
```

```policy
A, B
# enum E {A}
enum E {
```
The rest of this enum follows.
```policy
A }";

#[test]
fn each_fault_has_its_line(rt: HostRuntime) -> Result<(), Fail> {
    for row in DOCUMENTS.split("# ").skip(1) {
        let (want, source) = row.split_once("\n").unwrap_or((row, ""));
        let found = block_shown(rt.alloc(), "", source, "")?;
        assert!(rt; found.as_str() == want, "{source}: {}", found.as_str());
    }
    Ok(())
}
