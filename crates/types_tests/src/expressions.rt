//! The types of expressions.

pub const FITTING: &str = "# ok 1: an int where an int is asked for
function f() int { return 1 }
# type, line 5: a bool where an int is asked for
function f() int { return true }
# ok 1: no value fits each type
function f() bytes { return unwrap None }
# ok 1: none fits each optional
function f() optional bytes { return None }
# type, line 5: an int fits no optional
function f() optional int { return 1 }
# ok 1: an int in an optional
function f() optional int { return Some(1) }
# type, line 5: an optional fits no int
function f() int { return Some(1) }
# type, line 5: what stands in the optional doesn't fit
function f() optional int { return Some(true) }
# ok 1: none in an optional
function f() optional optional int { return Some(None) }
# type, line 5: an optional of an int fits no optional of an optional
function f() optional optional int { return Some(1) }
# type, line 5: the result of an optional of another type
function f(a optional int) optional bool { return a }
# ok 1: the result of an optional of the type
function f(a optional int) optional int { return a }
# type, line 5: two enums with the same variants are two types
function f() enum E { return F::A }
enum E { A }
enum F { A }
# ok 3: an enum's own variant
function f() enum E { return E::A }
enum E { A }
enum F { A }
# type, line 5: two structs with the same fields are two types
function f(a struct P) struct Q { return a }
struct P { n int }
struct Q { n int }
# ok 3: a struct's own type
function f(a struct P) struct P { return a }
struct P { n int }
struct Q { n int }
# ok 1: literals of each type
function f() string { let n = -7 let t = true let u = false return \"text\" }
# type, line 5: a text is no int
function f() int { return \"1\" }
# type, line 5: no such variant
action a() { let x = E::B }
enum E { A }
# ok 2: a variant
action a() { let x = E::A }
enum E { A }
# type, line 5: a variant of what is no enum
action a() { let x = S::A }
struct S { A int }";

pub const FORMS: &str = "# ok 1: unwrap of an optional
action a() { check unwrap Some(true) }
# type, line 5: unwrap of a bool
action a() { check unwrap true }
# ok 1: unwrap gives the inner type
function f(a optional int) int { return unwrap a }
# type, line 5: unwrap gives no other type
function f(a optional int) bool { return unwrap a }
# type, line 5: check takes a bool, and no value isn't taken for one
action a() { check unwrap None }
# ok 1: check_unwrap of an optional
action a() { check check_unwrap Some(true) }
# type, line 5: check_unwrap of a bool
action a() { check check_unwrap true }
# ok 1: `is` takes an optional
action a() { check None is Some }
# type, line 5: `is` takes no int
action a() { check 7 is Some }
# type, line 5: `is` takes no value of no type
action a() { check unwrap None is None }
# ok 1: one side fits the other
action a() { check Some(1) == None check None != Some(1) check 1 == unwrap None }
# type, line 5: neither side fits the other
action a() { check 1 == true }
# type, line 5: neither optional fits the other
action a() { check Some(1) != Some(true) }
# type, line 5: an int and an optional
action a() { check 1 == Some(1) }
# ok 1: `==` of any one type
action a(x bytes, y id) { check x == x check y == y }
# ok 1: orders of ints
action a() { check 1 < 2 check 1 <= 2 check 2 > 1 check 2 >= 1 }
# type, line 5: an order of texts
action a() { check \"a\" < \"b\" }
# type, line 5: an order of no value
action a() { check unwrap None <= 3 }
# ok 1: both sides are bools
action a() { check true && false check true || false check !false }
# type, line 5: the left side of `&&`
action a() { check 1 && true }
# type, line 5: the right side of `&&`
action a() { check true && 1 }
# type, line 5: the left side of `||`
action a() { check 1 || true }
# type, line 5: the right side of `||`
action a() { check true || 1 }
# type, line 5: `!` of an int
action a() { check !1 }
# ok 1: add and sub give optional ints
function f() optional int { let x = add(1, 2) return sub(unwrap x, 1) }
# type, line 5: add gives no int
function f() int { return add(1, 2) }
# type, line 5: add takes ints
function f() optional int { return add(1, true) }
# type, line 5: sub takes ints
function f() optional int { return sub(\"a\", 1) }
# ok 1: the saturating forms give ints
function f() int { let x = saturating_add(1, 2) return saturating_sub(x, 1) }
# type, line 5: saturating_sub gives no optional
function f() optional int { return saturating_sub(1, 2) }
# type, line 5: saturating_add takes ints
function f() int { return saturating_add(1, None) }
# type, line 5: no value is taken for an int
function f() int { return saturating_add(unwrap None, 1) }
# ok 1: the right branch's type, which the left fits
function f() optional int { return if true { : None } else { : Some(1) } }
# ok 1: the left branch's type, which the right fits
function f() optional int { return if true { : Some(1) } else { : None } }
# type, line 5: branches of two types
action a() { let x = if true { : 1 } else { : true } }
# ok 1: branches of one type
action a() { let x = if true { : 1 } else { : 2 } }
# type, line 5: the head is no bool
action a() { let x = if 1 { : 1 } else { : 2 } }
# type, line 5: the result is the branches' type
function f() bool { return if true { : 1 } else { : 2 } }
# ok 1: one `if` behind another
function f() int { return if true { : 1 } else if false { : 2 } else { let x = 3 : x } }
# type, line 5: the last branch of two `if`s
function f() int { return if true { : 1 } else if false { : 2 } else { : true } }
# ok 2: each field once, in any order
action a() { let x = P { y: true, x: 1 } }
struct P { x int, y bool }
# type, line 5: a field lacks
action a() { let x = P { x: 1 } }
struct P { x int, y bool }
# type, line 5: a field stands twice
action a() { let x = P { x: 1, y: true, x: 1 } }
struct P { x int, y bool }
# type, line 5: a field that isn't declared
action a() { let x = P { x: 1, y: true, z: 1 } }
struct P { x int, y bool }
# type, line 5: a type that doesn't fit
action a() { let x = P { x: 1, y: 2 } }
struct P { x int, y bool }
# type, line 5: no such struct
action a() { let x = Q { x: 1, y: true } }
struct P { x int, y bool }
# ok 2: a field of an optional type takes none
action a() { let x = P { n: None } }
struct P { n optional int }
# ok 2: a struct literal is of its struct
action a() { check P { } == P { } }
struct P { }
# type, line 5: a struct literal is of no other struct
action a() { check P { } == Q { } }
struct P { }
struct Q { }";

pub const FACTS_AND_NAMES: &str = "# ok 2: query gives an optional struct of the fact
action a() { let r = unwrap query F[] check r.v }
fact F[]=>{v bool}
# type, line 5: query gives no struct
action a() { let r = query F[] check r.v }
fact F[]=>{v bool}
# ok 2: exists gives a bool
action a() { check exists F[] }
fact F[]=>{}
# type, line 5: exists gives no optional
action a() { check exists F[] is Some }
fact F[]=>{}
# ok 2: the counts that give bools
action a() { check at_least 1 F[] check at_most 1 F[] check exactly 1 F[] }
fact F[]=>{}
# type, line 5: at_least gives no int
action a() { check at_least 1 F[] == 1 }
fact F[]=>{}
# type, line 5: at_least of 0
action a() { check at_least 0 F[] }
fact F[]=>{}
# type, line 5: at_most of 0
action a() { check at_most 0 F[] }
fact F[]=>{}
# type, line 5: exactly a negative number
action a() { check exactly -1 F[] }
fact F[]=>{}
# ok 2: count_up_to gives an int
action a() { check count_up_to 1 F[] == 1 }
fact F[]=>{}
# type, line 5: count_up_to gives no bool
action a() { check count_up_to 1 F[] }
fact F[]=>{}
# type, line 5: count_up_to 0
action a() { check count_up_to 0 F[] == 0 }
fact F[]=>{}
# ok 2: arguments fit the parameters
action a() { check f(1, None) }
function f(x int, y optional int) bool { return true }
# type, line 5: an argument doesn't fit
action a() { check f(1, 2) }
function f(x int, y optional int) bool { return true }
# type, line 5: too few arguments
action a() { check f(1) }
function f(x int, y optional int) bool { return true }
# type, line 5: too many arguments
action a() { check f(1, None, 3) }
function f(x int, y optional int) bool { return true }
# type, line 5: a call has the declared type
action a() { check f() }
function f() int { return 1 }
# ok 2: a call of a bool
action a() { check f() }
function f() bool { return true }
# type, line 5: a finish function is called as a function
action a() { check f() }
finish function f() { }
# type, line 5: an action is called
action a() { check b() }
action b() { }
# ok 2: a policy's `let` has its literal's type
let n = 1
action a() { check n == 1 }
# type, line 6: a policy's `let` has no other type
let n = 1
action a() { check n }
# ok 1: a name that is in scope
action a(n bool) { check n }
# type, line 5: a name that isn't
action a(n bool) { check m }
# type, line 5: the name of a fact is no value
action a() { check F == F }
fact F[]=>{}
# type, line 5: a name has the type with which it was introduced
action a(n int) { let m = n check m }
# ok 1: a name of a bool
action a(n bool) { let m = n check m }
# ok 1: `this` is the command's struct
command C { fields { n int } SEAL OPEN policy { check this.n == 1 } }
# type, line 5: a field that the command lacks
command C { fields { n int } SEAL OPEN policy { check this.m == 1 } }
# type, line 5: the field of an int
action a(n int) { check n.m == 1 }
# ok 2: the field of a struct
action a(p struct P) { check p.m == 1 }
struct P { m int }
# type, line 5: the type of a field
action a(p struct P) { check p.m }
struct P { m int }
# ok 3: the field of a field
action a(p struct P) { check p.q.m }
struct P { q struct Q }
struct Q { m bool }
# ok 2: the name of a `map` has the fact's struct, of keys and values
action a() { map F[] as r { check r.k == r.v } }
fact F[k int]=>{v int}
# type, line 5: the name of a `map` is no bool
action a() { map F[] as r { check r } }
fact F[k int]=>{v int}";
