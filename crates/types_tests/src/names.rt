//! Names for values: which may be introduced, and how far they reach.

pub const ROWS: &str = "# ok 1: two names
action a() { let x = 1 let y = 2 }
# type, line 5: one name twice
action a() { let x = 1 let x = 2 }
# ok 1: another name than the parameter's
action a(x int) { let y = 2 }
# type, line 5: the name of a parameter
action a(x int) { let x = 2 }
# ok 2: `map` has another name
action a(x int) { map F[] as y { } }
fact F[]=>{}
# type, line 5: `map` has a name that is in scope
action a(x int) { map F[] as x { } }
fact F[]=>{}
# ok 1: in a block another name than outside
action a(x int) { if true { let y = 1 } }
# type, line 5: in a block a name from outside
action a(x int) { if true { let x = 1 } }
# type, line 5: in an arm a name from outside
action a(x int) { match x { _ => { let x = 1 } } }
# type, line 5: in an `if` expression a name from outside
action a(x int) { let y = if true { let x = 1 : x } else { : 2 } }
# ok 1: in an `if` expression another name
action a(x int) { let y = if true { let z = 1 : z } else { : 2 } }
# ok 2: another name than the policy's `let`
let x = 1
action a() { let y = 2 }
# type, line 6: a `let` of the name of the policy's
let x = 1
action a() { let x = 2 }
# type, line 6: a parameter of the name of the policy's `let`
let x = 1
action a(x int) { }
# type, line 6: the same of a function
let x = 1
function f(x int) int { return 1 }
# type, line 6: the same of a finish function
let x = 1
finish function f(x int) { }
# type, line 6: a `map` of the name of the policy's `let`
let x = 1
action a() { map F[] as x { } }
fact F[]=>{}
# type, line 6: the policy's `let` stands behind its use as a name
use u
action a() { let x = 2 }
let x = 1
# ok 3: the same with another name
use u
action a() { let y = 2 }
let x = 1
# ok 3: local names may be those of other items
fact n[]=>{}
function m() int { return 1 }
action a(n int) { let m = n let a = m }
# ok 1: `envelope` in an action
action a() { let envelope = 1 check envelope == 1 }
# ok 1: `envelope` in a function
function f(envelope int) int { return envelope }
# type, line 5: `envelope` in a policy block
command C { fields { } SEAL OPEN policy { let envelope = 1 } }
# ok 1: another name in a policy block
command C { fields { } SEAL OPEN policy { let envelopes = 1 } }
# type, line 5: `envelope` in a recall block
command C { fields { } SEAL OPEN policy { } recall { let envelope = 1 } }
# ok 1: another name in a recall block
command C { fields { } SEAL OPEN policy { } recall { let envelopes = 1 } }
# ok 1: a name in its block
action a() { if true { let x = true check x } }
# type, line 5: a name behind its block
action a() { if true { let x = true } check x }
# ok 1: the same name in a later block
action a() { if true { let x = true } else { let x = 1 } let x = 2 }
# type, line 5: a name behind its arm
action a() { match 1 { _ => { let x = true } } check x }
# type, line 5: a name behind its `map`
action a() { map F[] as x { } check x == x }
fact F[]=>{}
# ok 2: a name within its `map`
action a() { map F[] as x { check x == x } }
fact F[]=>{}
# type, line 5: a name behind its `if` expression
action a() { let y = if true { let z = 1 : z } else { : 2 } check z == 1 }
# type, line 5: a name before its `let`
action a() { check x let x = true }
# ok 1: a name behind its `let`
action a() { let x = true check x }
# ok 1: each block has its own names
command C { fields { } SEAL OPEN policy { let x = true } recall { let x = 1 } }
# type, line 5: a name of the policy block in the recall block
command C { fields { } SEAL OPEN policy { let x = true } recall { check x } }";
