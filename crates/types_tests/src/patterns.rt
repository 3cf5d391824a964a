//! Patterns of facts, and what `create`, `update` and `delete` bind.

pub const PATTERNS: &str = "# ok 2: leading parts of the keys
fact W[a string, b int]=>{c int, d bool}
action x() { check exists W[] check exists W[a: \"x\"] check exists W[a: \"x\", b: 1] }
# type, line 6: a key without those before it
fact W[a string, b int]=>{c int, d bool}
action x() { check exists W[b: 1] }
# type, line 6: keys in another order
fact W[a string, b int]=>{c int, d bool}
action x() { check exists W[b: 1, a: \"x\"] }
# type, line 6: a key twice
fact W[a string, b int]=>{c int, d bool}
action x() { check exists W[a: \"x\", a: \"x\"] }
# type, line 6: a value among the keys
fact W[a string, b int]=>{c int, d bool}
action x() { check exists W[a: \"x\", c: 1] }
# type, line 6: more keys than there are
fact W[a string, b int]=>{c int, d bool}
action x() { check exists W[a: \"x\", b: 1, c: 1] }
# ok 2: gaps behind the expressions
fact W[a string, b int]=>{c int, d bool}
action x() { check exists W[a: \"x\", b: ?] check exists W[a: ?, b: ?] }
# type, line 6: an expression behind a gap
fact W[a string, b int]=>{c int, d bool}
action x() { check exists W[a: ?, b: 1] }
# ok 2: values in any order
fact W[a string, b int]=>{c int, d bool}
action x() { check exists W[a: ?]=>{d: true, c: ?} check exists W[]=>{c: 1} check exists W[]=>{ } }
# type, line 6: a value twice
fact W[a string, b int]=>{c int, d bool}
action x() { check exists W[]=>{c: 1, c: 1} }
# type, line 6: a gap for a value twice
fact W[a string, b int]=>{c int, d bool}
action x() { check exists W[]=>{c: ?, c: ?} }
# type, line 6: a key among the values
fact W[a string, b int]=>{c int, d bool}
action x() { check exists W[]=>{a: ?} }
# type, line 6: a value that the fact lacks
fact W[a string, b int]=>{c int, d bool}
action x() { check exists W[]=>{e: ?} }
# type, line 6: the expression of a key doesn't fit
fact W[a string, b int]=>{c int, d bool}
action x() { check exists W[a: 1] }
# type, line 6: the expression of a value doesn't fit
fact W[a string, b int]=>{c int, d bool}
action x() { check exists W[]=>{c: true} }
# ok 2: none fits an optional value
fact W[a string]=>{c optional int}
action x() { check exists W[]=>{c: None} }
# type, line 6: the expression of a key has no type
fact W[a string, b int]=>{c int, d bool}
action x() { check exists W[a: y] }
# type, line 6: the pattern of a `map`
fact W[a string, b int]=>{c int, d bool}
action x() { map W[b: 1] as r { } }
# ok 2: the pattern of a `map` with a leading key
fact W[a string, b int]=>{c int, d bool}
action x() { map W[a: \"x\"] as r { } }";

pub const WRITES: &str = "# ok 2: create binds all keys in order, and all values in any order
fact W[a string, b int]=>{c int, d bool}
finish function x() { create W[a: \"x\", b: 1]=>{d: true, c: 2} }
# type, line 6: create lacks a key
fact W[a string, b int]=>{c int, d bool}
finish function x() { create W[a: \"x\"]=>{d: true, c: 2} }
# type, line 6: create has its keys in another order
fact W[a string, b int]=>{c int, d bool}
finish function x() { create W[b: 1, a: \"x\"]=>{d: true, c: 2} }
# type, line 6: create lacks a value
fact W[a string, b int]=>{c int, d bool}
finish function x() { create W[a: \"x\", b: 1]=>{d: true} }
# type, line 6: create has a value twice
fact W[a string, b int]=>{c int, d bool}
finish function x() { create W[a: \"x\", b: 1]=>{d: true, c: 2, c: 2} }
# type, line 6: create has a value that the fact lacks
fact W[a string, b int]=>{c int, d bool}
finish function x() { create W[a: \"x\", b: 1]=>{d: true, c: 2, e: 3} }
# type, line 6: the expression of a key of create doesn't fit
fact W[a string, b int]=>{c int, d bool}
finish function x() { create W[a: 1, b: 1]=>{d: true, c: 2} }
# type, line 6: the expression of a value of create doesn't fit
fact W[a string, b int]=>{c int, d bool}
finish function x() { create W[a: \"x\", b: 1]=>{d: 1, c: 2} }
# type, line 6: create of what is no fact
struct W { a string }
finish function x() { create W[a: \"x\"]=>{ } }
# ok 2: create of the fact
fact W[a string]=>{ }
finish function x() { create W[a: \"x\"]=>{ } }
# ok 2: delete binds all keys in order
fact W[a string, b int]=>{c int, d bool}
finish function x() { delete W[a: \"x\", b: 1] }
# type, line 6: delete lacks a key
fact W[a string, b int]=>{c int, d bool}
finish function x() { delete W[a: \"x\"] }
# type, line 6: delete has its keys in another order
fact W[a string, b int]=>{c int, d bool}
finish function x() { delete W[b: 1, a: \"x\"] }
# type, line 6: the expression of a key of delete doesn't fit
fact W[a string, b int]=>{c int, d bool}
finish function x() { delete W[a: \"x\", b: true] }
# ok 2: update binds all keys, any old values, and all new ones
fact W[a string, b int]=>{c int, d bool}
finish function x() { update W[a: \"x\", b: 1]=>{c: 2} to {d: true, c: 3} update W[a: \"x\", b: 1] to {c: 3, d: true} }
# type, line 6: the pattern of update lacks a key
fact W[a string, b int]=>{c int, d bool}
finish function x() { update W[a: \"x\"]=>{c: 2} to {c: 3, d: true} }
# type, line 6: the pattern of update has a gap for a key
fact W[a string, b int]=>{c int, d bool}
finish function x() { update W[a: \"x\", b: ?]=>{c: 2} to {c: 3, d: true} }
# ok 2: the pattern of update has a gap for a value
fact W[a string, b int]=>{c int, d bool}
finish function x() { update W[a: \"x\", b: 1]=>{c: ?, d: false} to {c: 3, d: true} }
# type, line 6: update lacks a new value
fact W[a string, b int]=>{c int, d bool}
finish function x() { update W[a: \"x\", b: 1]=>{c: 2} to {c: 3} }
# type, line 6: the expression of a new value doesn't fit
fact W[a string, b int]=>{c int, d bool}
finish function x() { update W[a: \"x\", b: 1]=>{c: 2} to {c: true, d: true} }
# type, line 6: update of an immutable fact
immutable fact W[a string]=>{c int}
finish function x() { update W[a: \"x\"] to {c: 3} }
# ok 2: create and delete of an immutable fact
immutable fact W[a string]=>{c int}
finish function x() { create W[a: \"x\"]=>{c: 1} delete W[a: \"x\"] }
# ok 2: update of a fact
fact W[a string]=>{c int}
finish function x() { update W[a: \"x\"] to {c: 3} }";
