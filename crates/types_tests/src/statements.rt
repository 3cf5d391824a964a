//! Statements: which stand where, how lists of them end, and the arms of a `match`.

pub const PLACES: &str = "# ok 2: the statements of policy and recall blocks
fact F[]=>{}
command C { fields { } SEAL OPEN policy { let x = 1 check true if true { } match x { _ => { } } finish { } } recall { let x = 1 check true if true { } match x { _ => { } } finish { } } }
# type, line 6: return in a policy block
fact F[]=>{}
command C { fields { } SEAL OPEN policy { return 1 } }
# type, line 6: map in a policy block
fact F[]=>{}
command C { fields { } SEAL OPEN policy { map F[] as r { } } }
# type, line 6: publish in a policy block
fact F[]=>{}
command C { fields { } SEAL OPEN policy { publish C { } } }
# type, line 6: publish in a recall block
fact F[]=>{}
command C { fields { } SEAL OPEN policy { } recall { publish C { } } }
# ok 1: the statements of functions
function f() int { let x = 1 check true if true { } match x { _ => { } } return x }
# type, line 5: finish in a function
function f() int { if true { finish { } } return 1 }
# type, line 5: map in a function
function f() int { map F[] as r { } return 1 }
fact F[]=>{}
# type, line 5: publish in a function
function f() int { publish C { } return 1 }
command C { fields { } SEAL OPEN policy { } }
# ok 3: the statements of actions
action a() { let x = 1 check true if true { } match x { _ => { } } map F[] as r { } publish C { } }
fact F[]=>{}
command C { fields { } SEAL OPEN policy { } }
# type, line 5: finish in an action
action a() { finish { } }
# type, line 5: return in an action
action a() { return 1 }
# ok 1: finish is the last of its list
command C { fields { } SEAL OPEN policy { check true finish { } } }
# type, line 5: a statement behind finish
command C { fields { } SEAL OPEN policy { finish { } check true } }
# ok 1: a statement behind the `if` around finish
command C { fields { } SEAL OPEN policy { if true { finish { } } check true } }
# type, line 5: a statement behind finish in an `if`
command C { fields { } SEAL OPEN policy { if true { finish { } check true } } }
# ok 1: return is the last of its list
function f() int { check true return 1 }
# type, line 5: a statement behind return
function f() int { return 1 check true }
# type, line 5: a return behind return
function f() int { return 1 return 1 }
# ok 1: a return behind the `match` around another
function f() int { match 1 { 1 => { return 1 } _ => { } } return 2 }
# type, line 5: a function without a statement
function f() int { }
# type, line 5: a function that ends in no return
function f() int { check true }
# ok 1: an `if` whose branches all return
function f() int { if true { return 1 } else if false { return 2 } else { check true return 3 } }
# type, line 5: an `if` without `else`
function f() int { if true { return 1 } }
# type, line 5: an `if` of which one branch doesn't return
function f() int { if true { return 1 } else if false { check true } else { return 3 } }
# ok 1: a `match` whose arms all return
function f() int { match 1 { 1 => { return 1 } _ => { return 2 } } }
# type, line 5: a `match` of which one arm doesn't return
function f() int { match 1 { 1 => { return 1 } _ => { } } }
# type, line 5: a return in a last `check`'s place
function f() int { if true { return 1 } else { return 2 } check true }
# ok 1: finish functions and actions needn't end in anything
finish function f() { }
# ok 1: return fits the declared type
function f() optional int { return None }
# type, line 5: return doesn't fit it
function f() optional int { return 1 }
# type, line 5: return in an `if` doesn't fit it
function f() int { if true { return true } return 1 }
# ok 1: check takes a bool
action a() { check true }
# type, line 5: check takes no int
action a() { check 1 }
# ok 1: the head of an `if` is a bool
action a() { if true { } }
# type, line 5: the head of an `if` is no optional
action a() { if None { } }
# type, line 5: the head of the second `if`
action a() { if true { } else if 1 { } }
# ok 2: publish takes a command's struct
action a() { publish C { n: 1 } let c = C { n: 2 } publish c }
command C { fields { n int } SEAL OPEN policy { } }
# type, line 5: publish takes no other struct
action a() { publish S { n: 1 } }
struct S { n int }
# type, line 5: publish takes no int
action a() { publish 1 }
# ok 2: emit takes an effect's struct
finish function f(e struct E) { emit E { n: 1 } emit e }
effect E { n int }
# type, line 5: emit takes no other struct
finish function f() { emit E { n: 1 } }
struct E { n int }
# ok 2: a finish function's arguments fit its parameters
finish function f(n int) { g(n, None) }
finish function g(n int, o optional int) { }
# type, line 5: a finish function's arguments don't
finish function f(n int) { g(None, n) }
finish function g(n int, o optional int) { }
# type, line 5: a finish function has too few arguments
finish function f(n int) { g(n) }
finish function g(n int, o optional int) { }
# type, line 5: a function is called as a finish function
finish function f() { g() }
function g() int { return 1 }";

pub const ARMS: &str = "# ok 2: a `match` of each type that it takes
enum E { A, B }
action a(n int, b bool, s string, e enum E, o optional id) { match n { _ => { } } match b { _ => { } } match s { _ => { } } match e { _ => { } } match o { _ => { } } }
# type, line 5: a `match` of an id
action a(x id) { match x { _ => { } } }
# type, line 5: a `match` of bytes
action a(x bytes) { match x { _ => { } } }
# type, line 5: a `match` of a struct
action a(x struct S) { match x { _ => { } } }
struct S { }
# type, line 5: a `match` of no value
action a() { match unwrap None { _ => { } } }
# ok 1: a `match` of an optional of no value
action a() { match None { _ => { } } }
# ok 1: values of the type
action a(n int, s string) { match n { 1 | -2 => { } 3 => { } _ => { } } match s { \"a\" => { } _ => { } } }
# type, line 5: a value of another type
action a(n int) { match n { 1 => { } true => { } _ => { } } }
# ok 1: none of an optional
action a(o optional int) { match o { None => { } _ => { } } }
# type, line 5: none of an int
action a(n int) { match n { None => { } _ => { } } }
# type, line 5: a number of an optional
action a(o optional int) { match o { 1 => { } _ => { } } }
# type, line 5: one value in two arms
action a(n int) { match n { 1 => { } 1 => { } _ => { } } }
# type, line 5: one value twice in one arm
action a(n int) { match n { 1 | 2 | 1 => { } _ => { } } }
# type, line 5: one text in two arms
action a(s string) { match s { \"a\" => { } \"a\" => { } _ => { } } }
# type, line 5: none in two arms
action a(o optional int) { match o { None => { } None => { } _ => { } } }
# ok 1: `_` stands last
action a(n int) { match n { 1 => { } _ => { } } }
# type, line 5: `_` stands before another arm
action a(n int) { match n { _ => { } 1 => { } } }
# type, line 5: two arms are `_`
action a(n int) { match n { 1 => { } _ => { } _ => { } } }
# type, line 5: an int without `_`
action a(n int) { match n { 1 => { } } }
# type, line 5: a string without `_`
action a(s string) { match s { \"a\" => { } } }
# ok 1: both values of a bool
action a(b bool) { match b { true => { } false => { } } }
# ok 1: both values of a bool in one arm
action a(b bool) { match b { true | false => { } } }
# type, line 5: one value of a bool
action a(b bool) { match b { true => { } } }
# ok 1: one value of a bool, and `_`
action a(b bool) { match b { true => { } _ => { } } }
# ok 1: both values of a bool, and `_`
action a(b bool) { match b { true | false => { } _ => { } } }
# ok 2: all variants of an enum
action a(e enum E) { match e { E::B => { } E::A | E::C => { } } }
enum E { A, B, C }
# type, line 5: a variant lacks
action a(e enum E) { match e { E::B => { } E::A => { } } }
enum E { A, B, C }
# type, line 5: a variant of another enum
action a(e enum E) { match e { E::A => { } F::A => { } _ => { } } }
enum E { A, B }
enum F { A }
# type, line 5: no such variant
action a(e enum E) { match e { E::A => { } E::B => { } _ => { } } }
enum E { A }
# type, line 5: an optional without `_`
action a(o optional int) { match o { None => { } } }
# type, line 5: no arm
action a(n int) { match n { } }
# type, line 5: an arm of a `match` is judged as a block
action a(n int) { match n { 1 => { check n } _ => { } } }";
