//! Which forms of expressions stand in which blocks, and how calls reach one another.

pub const BLOCKS: &str = "# ok 4: what stands inside finish
fact F[n int, e enum E]=>{o optional int, p struct P}
enum E { A }
struct P { m int }
command C { fields { n int, p struct P } SEAL OPEN policy { let x = 1 finish { create F[n: x, e: E::A]=>{o: Some(this.n), p: P { m: (this.p.m) }} delete F[n: 1, e: E::A] update F[n: x, e: E::A]=>{o: None} to {o: None, p: this.p} } } }
# type, line 6: a calculation inside finish
fact F[n int]=>{}
command C { fields { } SEAL OPEN policy { finish { create F[n: saturating_add(1, 2)]=>{} } } }
# ok 2: a calculation before finish
fact F[n int]=>{}
command C { fields { } SEAL OPEN policy { let x = saturating_add(1, 2) finish { create F[n: x]=>{} } } }
# type, line 6: a comparison inside finish
fact F[b bool]=>{}
command C { fields { } SEAL OPEN policy { finish { delete F[b: 1 == 1] } } }
# type, line 6: logic inside finish
fact F[b bool]=>{}
command C { fields { } SEAL OPEN policy { finish { delete F[b: true && true] } } }
# type, line 6: a sign inside finish
fact F[b bool]=>{}
command C { fields { } SEAL OPEN policy { finish { delete F[b: !true] } } }
# type, line 6: a test of an optional inside finish
fact F[b bool]=>{}
command C { fields { } SEAL OPEN policy { finish { delete F[b: None is None] } } }
# type, line 6: unwrap inside finish
fact F[n int]=>{}
command C { fields { } SEAL OPEN policy { finish { delete F[n: unwrap Some(1)] } } }
# type, line 6: a call inside finish
fact F[n int]=>{}
command C { fields { } SEAL OPEN policy { finish { delete F[n: f()] } } }
function f() int { return 1 }
# type, line 6: a query inside finish
fact F[b bool]=>{}
command C { fields { } SEAL OPEN policy { finish { delete F[b: exists F[]] } } }
# type, line 6: a count inside finish
fact F[b bool]=>{}
command C { fields { } SEAL OPEN policy { finish { delete F[b: at_least 1 F[]] } } }
# type, line 6: an `if` inside finish
fact F[n int]=>{}
command C { fields { } SEAL OPEN policy { finish { delete F[n: if true { : 1 } else { : 2 }] } } }
# type, line 6: a calculation in a struct inside finish
effect E { n int }
command C { fields { } SEAL OPEN policy { finish { emit E { n: saturating_add(1, 2) } } } }
# ok 2: a name in a struct inside finish
effect E { n int }
command C { fields { } SEAL OPEN policy { let x = saturating_add(1, 2) finish { emit E { n: x } } } }
# type, line 6: a calculation in the pattern of an update
fact F[n int]=>{m int}
command C { fields { } SEAL OPEN policy { finish { update F[n: 1]=>{m: saturating_add(1, 2)} to {m: 3} } } }
# type, line 6: a calculation behind `to`
fact F[n int]=>{m int}
command C { fields { } SEAL OPEN policy { finish { update F[n: 1]=>{m: 3} to {m: saturating_add(1, 2)} } } }
# type, line 6: a calculation as an argument inside finish
finish function g(n int) { }
command C { fields { } SEAL OPEN policy { finish { g(saturating_add(1, 2)) } } }
# ok 2: a name as an argument inside finish
finish function g(n int) { }
command C { fields { n int } SEAL OPEN policy { finish { g(this.n) } } }
# type, line 6: a calculation in a finish function
fact F[n int]=>{}
finish function g() { delete F[n: saturating_add(1, 2)] }
# ok 2: a parameter in a finish function
fact F[n int]=>{}
finish function g(n int) { delete F[n: n] }
# ok 2: `this` in the policy block, in recall and in finish
command C { fields { n int } SEAL OPEN policy { check this == this finish { g(this.n) } } recall { check this.n == 1 finish { g(this.n) } } }
finish function g(n int) { }
# type, line 5: `this` in a function
function f() int { let x = this return 1 }
# ok 1: the same without `this`
function f() int { let x = 1 return 1 }
# type, line 5: `this` in an action
action a() { let x = this }
# type, line 6: `this` in a finish function
fact F[n int]=>{}
finish function g() { delete F[n: this.n] }
# ok 1: the author and the command's id in policy and recall blocks
command C { fields { } SEAL OPEN policy { check envelope::author_id(envelope) == envelope::command_id(envelope) } recall { let x = envelope::command_id(envelope) } }
# type, line 5: the author is an id
command C { fields { } SEAL OPEN policy { check envelope::author_id(envelope) == 1 } }
# type, line 5: the author in an action
action a() { let x = envelope::author_id(envelope) }
# type, line 5: the author in a function
function f(envelope id) id { return envelope::author_id(envelope) }
# ok 1: the parameter in that function
function f(envelope id) id { return envelope }
# type, line 6: the author inside finish
fact F[n id]=>{}
command C { fields { } SEAL OPEN policy { finish { delete F[n: envelope::author_id(envelope)] } } }
# ok 2: the author before finish
fact F[n id]=>{}
command C { fields { } SEAL OPEN policy { let x = envelope::author_id(envelope) finish { delete F[n: x] } } }
# type, line 5: another argument
command C { fields { } SEAL OPEN policy { let x = envelope::author_id(this) } }
# type, line 5: no argument
command C { fields { } SEAL OPEN policy { let x = envelope::author_id() }}
# type, line 5: another call of the envelope
command C { fields { } SEAL OPEN policy { let x = envelope::size(envelope) } }
# type, line 5: the envelope as a value
command C { fields { } SEAL OPEN policy { let x = envelope } }
# type, line 6: the envelope as a value, beside a `let` of that name
let envelope = 1
command C { fields { } SEAL OPEN policy { check envelope == 1 } }
# ok 2: that `let` in an action
let envelope = 1
action a() { check envelope == 1 }
# type, line 6: the envelope as a value inside finish, beside a `let` of that name
let envelope = 1
command C { fields { } SEAL OPEN policy { finish { g(envelope) } } }
finish function g(n int) { }
# ok 1: the device in an action
action a() { check device::current_device_id() == device::current_device_id() }
# type, line 5: the device is an id
action a() { check device::current_device_id() }
# type, line 5: the device in a policy block
command C { fields { } SEAL OPEN policy { let x = device::current_device_id() } }
# type, line 5: the device in a function
function f() id { return device::current_device_id() }
# type, line 5: the device with an argument
action a() { let x = device::current_device_id(1) }
# type, line 5: another call of the device
action a() { let x = device::name() }
# type, line 5: a call of another module
action a() { let x = random::number() }";

pub const CALLS: &str = "# type, line 5: a function reaches itself
function f() int { return f() }
# ok 1: a function doesn't
function f() int { return 1 }
# type, line 5: two functions reach one another
function f() int { return g() }
function g() int { return f() }
# ok 2: a function calls another
function f() int { return g() }
function g() int { return 1 }
# type, line 5: a finish function reaches itself
finish function f() { f() }
# type, line 5: two finish functions reach one another
finish function f() { g() }
finish function g() { f() }
# ok 2: a finish function calls another
finish function f() { g() }
finish function g() { }
# type, line 5: an action calls a function that reaches itself
action a() { check f() }
function f() bool { return f() }
# ok 2: an action calls a function that doesn't
action a() { check f() }
function f() bool { return true }
# type, line 6: a function in a pattern of an unrelated one
fact F[n int]=>{}
function f() int { check exists F[n: f()] return 1 }
# ok 2: a pattern without the call
fact F[n int]=>{}
function f() int { check exists F[n: 1] return 1 }
# type, line 5: a call of itself in an arm that is never taken
function f() int { if false { return f() } return 1 }";
