//! Items: their names, the types that they name, their fields, and how structs nest.

pub const ROWS: &str = "# type, line 6: two items have one name
fact A[]=>{}
effect A { }
# ok 2: two items have two names
fact A[]=>{}
effect B { }
# type, line 6: a `let` and an action have one name
let a = 1
action a() { }
# ok 2: a `let` and an action have two names
let a = 1
action b() { }
# type, line 5: an item has the name that is kept
struct Envelope { }
# ok 1: an item has nearly the name that is kept
struct Envelopes { }
# ok 3: `use` gives no name
use a
use a
struct a { }
# type, line 6: `use` has no effect
use a
struct S { a struct a }
# ok 3: the struct is there beside the `use`
use a
struct S { a struct a }
struct a { }
# type, line 5: a name means the first item of it, which is no struct
struct S { a struct A }
enum A { X }
struct A { }
# type, line 7: a name means the first item of it, which is the struct
struct S { a struct A }
struct A { }
enum A { X }
# type, line 5: a struct isn't there
struct S { a struct A }
# ok 2: a struct is there
struct S { a struct A }
struct A { }
# type, line 5: an enum isn't there
effect S { a enum A }
# ok 2: an enum is there
effect S { a enum A }
enum A { X }
# type, line 5: an enum is no struct
struct S { a struct A }
enum A { X }
# ok 2: an enum is an enum
struct S { a enum A }
enum A { X }
# type, line 5: a struct is no enum
fact F[a enum A]=>{}
struct A { }
# ok 2: the key is of an enum
fact F[a enum A]=>{}
enum A { X }
# type, line 5: the type in an optional isn't there
struct S { a optional optional struct A }
# ok 2: the type in an optional is there
struct S { a optional optional struct A }
struct A { }
# type, line 5: the type of a parameter isn't there
action a(p enum A) { }
# ok 2: the type of a parameter is there
action a(p enum A) { }
enum A { X }
# type, line 5: the type of a result isn't there
function f() struct A { return unwrap None }
# ok 2: the type of a result is there
function f() struct A { return unwrap None }
struct A { }
# type, line 5: a fact isn't there
action a() { check exists F[] }
# ok 2: a fact is there
action a() { check exists F[] }
fact F[]=>{}
# type, line 5: a struct is no fact
action a() { check exists F[] }
struct F { }
# type, line 5: a function isn't there
action a() { check f() }
# ok 2: a function is there
action a() { check f() }
function f() bool { return true }
# type, line 5: a finish function isn't there
finish function f() { g() }
# ok 2: a finish function is there
finish function f() { g() }
finish function g() { }
# type, line 5: two fields of a struct have one name
struct S { a int, a bool }
# ok 1: two fields of a struct have two names
struct S { a int, b bool }
# type, line 5: two fields of an effect have one name
effect S { a int, a bool dynamic }
# ok 1: two fields of an effect have two names
effect S { a int, b bool dynamic }
# type, line 5: two keys have one name
fact F[a int, a bool]=>{}
# ok 1: two keys have two names
fact F[a int, b bool]=>{}
# type, line 5: two values have one name
fact F[]=>{a int, a bool}
# ok 1: two values have two names
fact F[]=>{a int, b bool}
# type, line 5: a value has the name of a key
fact F[a int]=>{a int}
# ok 1: a value has another name than the key
fact F[a int]=>{b int}
# type, line 5: two fields of a command have one name
command C { fields { a int, a bool } SEAL OPEN policy { } }
# ok 1: two fields of a command have two names
command C { fields { a int, b bool } SEAL OPEN policy { } }
# type, line 5: two parameters of a function have one name
function f(a int, a bool) int { return 1 }
# ok 1: two parameters of a function have two names
function f(a int, b bool) int { return 1 }
# type, line 5: two parameters of a finish function have one name
finish function f(a int, a bool) { }
# ok 1: two parameters of a finish function have two names
finish function f(a int, b bool) { }
# type, line 5: two parameters of an action have one name
action f(a int, a bool) { }
# ok 1: two parameters of an action have two names
action f(a int, b bool) { }
# type, line 5: an enum has no variant
enum E { }
# ok 1: an enum has a variant
enum E { A }
# type, line 5: two variants have one name
enum E { A, B, A }
# ok 1: three variants have three names
enum E { A, B, C }
# type, line 5: a key is a struct
fact F[s struct S]=>{}
struct S { }
# ok 2: a value is a struct
fact F[]=>{s struct S}
struct S { }
# type, line 5: a key is an optional
fact F[n optional int]=>{}
# ok 1: a value is an optional
fact F[]=>{n optional int}
# ok 2: keys of each type that they may have
fact F[a int, b bool, c string, d bytes, e id, f enum E]=>{}
enum E { A }
# type, line 5: the literal of a `let` is no variant
let a = E::B
enum E { A }
# ok 2: the literal of a `let` is a variant
let a = E::A
enum E { A }
# type, line 5: a struct holds itself
struct S { s struct S }
# type, line 5: a struct holds itself in an optional
struct S { s optional struct S }
# type, line 6: two structs hold one another
struct R { }
struct S { t struct T }
struct T { s struct S }
# ok 3: a struct holds another
struct R { }
struct S { t struct T }
struct T { r struct R }
# type, line 5: a fact and an effect hold one another
fact F[]=>{e struct E}
effect E { f struct F }
# ok 2: a fact holds an effect
fact F[]=>{e struct E}
effect E { n int }
# ok 4: facts, effects and commands are structs
struct S { f struct F, e struct E, c struct C }
fact F[k int]=>{v bool}
effect E { n int }
command C { fields { n int } SEAL OPEN policy { } }
# type, line 5: a function is no struct
struct S { f struct f }
function f() int { return 1 }
# type, line 5: an action is no struct
struct S { f struct f }
action f() { }
# ok 2: the struct of a fact has its keys and its values
function f() struct F { return F { k: 1, v: true } }
fact F[k int]=>{v bool}
# type, line 5: the struct of a fact has its values too
function f() struct F { return F { k: 1 } }
fact F[k int]=>{v bool}
# type, line 5: the struct of a fact has its keys too
function f() struct F { return F { v: true } }
fact F[k int]=>{v bool}
# ok 2: the struct of an effect has its fields
function f() struct E { return E { n: 1 } }
effect E { n int dynamic }
# type, line 5: the struct of an effect has no other fields
function f() struct E { return E { m: 1 } }
effect E { n int dynamic }
# ok 2: the struct of a command has its fields
function f() struct C { return C { n: 1 } }
command C { SEAL OPEN fields { n int } policy { } }
# type, line 5: the struct of a command has no other fields
function f() struct C { return C { n: 1, m: 1 } }
command C { SEAL OPEN fields { n int } policy { } }";
