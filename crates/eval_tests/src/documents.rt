// Policies of these tests.

/// Every fault of a body and of a policy block.
pub const FAULTS: &str = r#"---
policy-version: 2
---
```policy
fact Row[n int]=>{v int}
effect Seen { n int }
function c0() int { return 0 }
function c1() int { let a = c0() let b = c0() let c = c0() let d = c0() let e = c0() let f = c0() let g = c0() let h = c0() let i = c0() let j = c0() return 0 }
function c2() int { let a = c1() let b = c1() let c = c1() let d = c1() let e = c1() let f = c1() let g = c1() let h = c1() let i = c1() let j = c1() return 0 }
function c3() int { let a = c2() let b = c2() let c = c2() let d = c2() let e = c2() let f = c2() let g = c2() let h = c2() let i = c2() let j = c2() return 0 }
function c4() int { let a = c3() let b = c3() let c = c3() let d = c3() let e = c3() let f = c3() let g = c3() let h = c3() let i = c3() let j = c3() return 0 }
function c5() int { let a = c4() let b = c4() let c = c4() let d = c4() let e = c4() let f = c4() let g = c4() let h = c4() let i = c4() let j = c4() return 0 }
finish function seen(n int) { emit Seen { n: n } }
command Start { attributes { init: true } fields { t string } seal { return envelope::do_seal(serialize(this)) } open { return deserialize(envelope::do_open(envelope)) } policy { finish { create Row[n: 0]=>{v: 0} } } }
command Put { fields { n int, v int } seal { return envelope::do_seal(serialize(this)) } open { return deserialize(envelope::do_open(envelope)) }
  policy { check this.n > 0 finish { create Row[n: this.n]=>{v: this.v} seen(this.n) } } }
command Change { fields { n int, old int } seal { return envelope::do_seal(serialize(this)) } open { return deserialize(envelope::do_open(envelope)) }
  policy { finish { emit Seen { n: 0 } create Row[n: 50]=>{v: 0} update Row[n: this.n]=>{v: this.old} to {v: 9} } } }
command Remove { fields { n int } seal { return envelope::do_seal(serialize(this)) } open { return deserialize(envelope::do_open(envelope)) } policy { finish { create Row[n: 60]=>{v: 0} delete Row[n: this.n] } } }
command Find { fields { n int } seal { return envelope::do_seal(serialize(this)) } open { return deserialize(envelope::do_open(envelope)) } policy { let r = unwrap query Row[n: this.n] finish { seen(r.v) } } }
command Need { fields { n int } seal { return envelope::do_seal(serialize(this)) } open { return deserialize(envelope::do_open(envelope)) } policy { let r = check_unwrap query Row[n: this.n] finish { seen(r.v) } } }
command Spin { fields { } seal { return envelope::do_seal(serialize(this)) } open { return deserialize(envelope::do_open(envelope)) } policy { let a = c5() finish { } } }
command Long { fields { t string, a int, b int } seal { return envelope::do_seal(serialize(this)) } open { return deserialize(envelope::do_open(envelope)) } policy { check this.a > 0 finish { } } }
action start(t string) { publish Start { t: t } }
action start_put(n int) { publish Start { t: "" } publish Put { n: n, v: 1 } }
action start_twice() { publish Start { t: "" } publish Start { t: "" } }
action put(n int, v int) { publish Put { n: n, v: v } }
action put_two(a int, b int) { publish Put { n: a, v: 1 } publish Put { n: b, v: 2 } }
action put_check(n int, b bool) { publish Put { n: n, v: 1 } check b }
action put_find(n int) { publish Put { n: n, v: 7 } let r = unwrap query Row[n: n] check r.v == 7 check exactly 3 Row[n: ?] }
action check_put(n int, b bool) { check b publish Put { n: n, v: 1 } }
action change(n int, old int) { publish Change { n: n, old: old } }
action remove(n int) { publish Remove { n: n } }
action find(n int) { publish Find { n: n } }
action need(n int) { publish Need { n: n } }
action spin() { publish Spin { } }
action long(t string, a int) { publish Long { t: t, a: a, b: 0 } }
action nothing() { }
action both(a bool, n int) { check a && (unwrap query Row[n: n]).v == 0 }
action find_row(n int) { let r = unwrap query Row[n: n] }
action need_row(n int) { let r = check_unwrap query Row[n: n] }
action full_turns() { let a = c4() let b = c4() let c = c4() let d = c4() let e = c4() let f = c4() let g = c4() let h = c4() let i = c4() let j = c0() }
action past_turns() { let a = c4() let b = c4() let c = c4() let d = c4() let e = c4() let f = c4() let g = c4() let h = c4() let i = c4() let j = c0() let k = c0() }
action sums() {
  check add(9223372036854775807, 1) is None
  check saturating_add(9223372036854775807, 1) == 9223372036854775807
  check sub(-9223372036854775808, 1) is None
  check saturating_sub(-9223372036854775808, 1) == -9223372036854775808
}
action past_sum() { check unwrap add(9223372036854775807, 1) == 0 }
```
"#;

/// A value of every type.
pub const VALUES: &str = r#"---
policy-version: 2
---
```policy
enum Color { Red, Blue }
struct Empty { }
struct Pair { a int, b optional string }
fact Key[c enum Color, b bool, d bytes, e id, t string]=>{p struct Pair, o optional optional bool}
effect All { a int, b bool, c string, d bytes, e id, f enum Color, g optional int, h struct Pair, i struct Empty, j optional struct Empty }
command Start { attributes { init: true } fields { } seal { return envelope::do_seal(serialize(this)) } open { return deserialize(envelope::do_open(envelope)) } policy { finish { } } }
command Show { fields { a int, b bool, c string, d bytes, e id, f enum Color, g optional int, h struct Pair, i struct Empty, j optional struct Empty } seal { return envelope::do_seal(serialize(this)) } open { return deserialize(envelope::do_open(envelope)) }
  policy { finish {
    create Key[c: this.f, b: this.b, d: this.d, e: this.e, t: this.c]=>{o: Some(None), p: this.h}
    emit All { a: this.a, b: this.b, c: this.c, d: this.d, e: this.e, f: this.f, g: this.g, h: this.h, i: this.i, j: this.j } } } }
action start() { publish Start { } }
action show(a int, b bool, c string, d bytes, e id, f enum Color, g optional int, h struct Pair, i struct Empty, j optional struct Empty) {
  publish Show { a: a, b: b, c: c, d: d, e: e, f: f, g: g, h: h, i: i, j: j }
}
```
"#;
