// The policies of the tables of scripts.

/// The policy of `examples/team`.
pub const TEAM: &str = r#"---
policy-version: 2
---
```policy
use envelope
enum Role { Owner, Member }
fact User[user id]=>{role enum Role}
fact Note[topic string, n int]=>{text string}
effect UserAdded { user id, role enum Role }
effect UserRemoved { user id }
effect NoteWritten { topic string, n int, text string }
effect NoteLost { topic string, n int }
function is_owner(user id) bool { return exists User[user: user]=>{role: Role::Owner} }
finish function set_user(user id, role enum Role) {
  create User[user: user]=>{role: role}
  emit UserAdded { user: user, role: role }
}
command CreateTeam { attributes { init: true } fields { } seal { return envelope::do_seal(serialize(this)) } open { return deserialize(envelope::do_open(envelope)) }
  policy { let author = envelope::author_id(envelope) finish { set_user(author, Role::Owner) } } }
command AddUser { attributes { priority: 20 } fields { user id, role enum Role } seal { return envelope::do_seal(serialize(this)) } open { return deserialize(envelope::do_open(envelope)) }
  policy { let author = envelope::author_id(envelope)
    check is_owner(author)
    check !exists User[user: this.user]
    finish { set_user(this.user, this.role) } } }
command RemoveUser { attributes { priority: 30 } fields { user id } seal { return envelope::do_seal(serialize(this)) } open { return deserialize(envelope::do_open(envelope)) }
  policy { let author = envelope::author_id(envelope)
    check is_owner(author)
    let gone = check_unwrap query User[user: this.user]
    finish { delete User[user: gone.user] emit UserRemoved { user: gone.user } } } }
command WriteNote { attributes { priority: 10 } fields { topic string, n int, text string } seal { return envelope::do_seal(serialize(this)) } open { return deserialize(envelope::do_open(envelope)) }
  policy { let author = envelope::author_id(envelope)
    check exists User[user: author]
    check !exists Note[topic: this.topic, n: this.n]
    finish { create Note[topic: this.topic, n: this.n]=>{text: this.text}
      emit NoteWritten { topic: this.topic, n: this.n, text: this.text } } }
  recall { finish { emit NoteLost { topic: this.topic, n: this.n } } } }
command CloseEpoch { attributes { finalize: true } fields { } seal { return envelope::do_seal(serialize(this)) } open { return deserialize(envelope::do_open(envelope)) }
  policy { let author = envelope::author_id(envelope) check is_owner(author) finish { } } }
action create_team() { publish CreateTeam { } }
action add_user(user id, role enum Role) { publish AddUser { user: user, role: role } }
action remove_user(user id) { publish RemoveUser { user: user } }
action write_note(topic string, n int, text string) {
  publish WriteNote { topic: topic, n: n, text: text }
}
action write_two(topic string, a int, b int) {
  publish WriteNote { topic: topic, n: a, text: "one" }
  publish WriteNote { topic: topic, n: b, text: "two" }
}
action close_epoch() { publish CloseEpoch { } }
```
"#;

/// The policy of `examples/priorities`.
pub const PRIORITIES: &str = r#"---
policy-version: 2
---
```policy
fact Count[]=>{n int}
fact Log[at int]=>{v int}
fact Slot[s int]=>{v int}
fact Word[a string, b int]=>{c int}
effect Did { v int }
effect Lost { v int }
finish function note(v int, old int, now int) {
  create Log[at: now]=>{v: v}
  update Count[]=>{n: old} to {n: now}
  emit Did { v: v }
}
command Begin { attributes { init: true } fields { } seal { return envelope::do_seal(serialize(this)) } open { return deserialize(envelope::do_open(envelope)) } policy { finish { create Count[]=>{n: 0} } } }
command Low { attributes { priority: 1 } fields { v int } seal { return envelope::do_seal(serialize(this)) } open { return deserialize(envelope::do_open(envelope)) } policy { let c = unwrap query Count[] let now = saturating_add(c.n, 1) finish { note(this.v, c.n, now) } } }
command Mid { attributes { priority: 5 } fields { v int } seal { return envelope::do_seal(serialize(this)) } open { return deserialize(envelope::do_open(envelope)) } policy { let c = unwrap query Count[] let now = saturating_add(c.n, 1) finish { note(this.v, c.n, now) } } }
command High { attributes { priority: 10 } fields { v int } seal { return envelope::do_seal(serialize(this)) } open { return deserialize(envelope::do_open(envelope)) } policy { let c = unwrap query Count[] let now = saturating_add(c.n, 1) finish { note(this.v, c.n, now) } } }
command Claim { attributes { priority: 5 } fields { s int, v int } seal { return envelope::do_seal(serialize(this)) } open { return deserialize(envelope::do_open(envelope)) }
  policy { check !exists Slot[s: this.s]
    finish { create Slot[s: this.s]=>{v: this.v} emit Did { v: this.v } } }
  recall { finish { emit Lost { v: this.v } } } }
command Free { attributes { priority: 10 } fields { s int } seal { return envelope::do_seal(serialize(this)) } open { return deserialize(envelope::do_open(envelope)) }
  policy { check exists Slot[s: this.s] finish { delete Slot[s: this.s] } } }
command Say { fields { a string, b int, c int } seal { return envelope::do_seal(serialize(this)) } open { return deserialize(envelope::do_open(envelope)) }
  policy { finish { create Word[a: this.a, b: this.b]=>{c: this.c} } } }
command Close { attributes { finalize: true } fields { } seal { return envelope::do_seal(serialize(this)) } open { return deserialize(envelope::do_open(envelope)) } policy { finish { } } }
action begin() { publish Begin { } }
action low(v int) { publish Low { v: v } }
action mid(v int) { publish Mid { v: v } }
action high(v int) { publish High { v: v } }
action claim(s int, v int) { publish Claim { s: s, v: v } }
action free(s int) { publish Free { s: s } }
action free_all() { map Slot[s: ?] as r { publish Free { s: r.s } } }
action say(a string, b int, c int) { publish Say { a: a, b: b, c: c } }
action probe(want int) {
  let r = unwrap query Word[a: "", b: ?]
  check r.c == want
  check count_up_to 5 Word[a: "", b: ?] == 2
}
action close() { publish Close { } }
```
"#;

/// A policy with keys, fields and parameters of each kind.
pub const VALUES: &str = r#"---
policy-version: 2
---
```policy
enum Level { Low, High }
enum Other { Low }
struct Pair { left int, right bool }
struct Mark { }
fact Thing[n int, b bool, s string, x bytes, i id, e enum Level]=>{o optional int, d optional optional optional int, p struct Pair}
effect Empty { }
effect Shown { n int, o optional int, p struct Pair, m struct Mark }
command Start { attributes { init: true } fields { } seal { return envelope::do_seal(serialize(this)) } open { return deserialize(envelope::do_open(envelope)) } policy { finish { } } }
command Put {
  fields { n int, b bool, s string, x bytes, i id, e enum Level, o optional int, d optional optional optional int, p struct Pair }
  seal { return envelope::do_seal(serialize(this)) } open { return deserialize(envelope::do_open(envelope)) }
  policy { finish {
    create Thing[n: this.n, b: this.b, s: this.s, x: this.x, i: this.i, e: this.e]=>{o: this.o, d: this.d, p: this.p}
    emit Empty { }
    emit Shown { n: this.n, o: this.o, p: this.p, m: Mark { } } } } }
action start() { publish Start { } }
action put(n int, b bool, s string, x bytes, i id, e enum Level, o optional int, d optional optional optional int, p struct Pair) {
  publish Put { n: n, b: b, s: s, x: x, i: i, e: e, o: o, d: d, p: p }
}
action number(n int) { }
action truth(b bool) { }
action word(s string) { }
action raw(x bytes) { }
action name(i id) { }
action level(e enum Level) { }
action maybe(o optional int) { }
action pair(p struct Pair) { }
```
"#;

/// A policy whose actions end in each way. A call of `c0` to `c5` costs 1, 11, 111, 1,111, 11,111 and 111,111 turns of
/// 100,000.
pub const CHANGES: &str = r#"---
policy-version: 2
---
```policy
fact Mark[s string]=>{n int}
struct Sheet { a int, b int, c int, d int, e int, f int, g int, h int }
struct Book { a struct Sheet, b struct Sheet, c struct Sheet, d struct Sheet, e struct Sheet, f struct Sheet, g struct Sheet, h struct Sheet }
struct Shelf { a struct Book, b struct Book, c struct Book, d struct Book, e struct Book, f struct Book, g struct Book, h struct Book, i struct Book }
command Start { attributes { init: true } fields { } seal { return envelope::do_seal(serialize(this)) } open { return deserialize(envelope::do_open(envelope)) } policy { finish { } } }
command Set { fields { s string, n int } seal { return envelope::do_seal(serialize(this)) } open { return deserialize(envelope::do_open(envelope)) }
  policy { check this.s != "" finish { create Mark[s: this.s]=>{n: this.n} } } }
command Move { fields { s string, old int, new int } seal { return envelope::do_seal(serialize(this)) } open { return deserialize(envelope::do_open(envelope)) }
  policy { finish { update Mark[s: this.s]=>{n: this.old} to {n: this.new} } } }
command Drop { fields { s string } seal { return envelope::do_seal(serialize(this)) } open { return deserialize(envelope::do_open(envelope)) } policy { finish { delete Mark[s: this.s] } } }
command Read { fields { s string } seal { return envelope::do_seal(serialize(this)) } open { return deserialize(envelope::do_open(envelope)) }
  policy { let m = unwrap query Mark[s: this.s] check m.n > 0 finish { } } }
command Spin { fields { } seal { return envelope::do_seal(serialize(this)) } open { return deserialize(envelope::do_open(envelope)) } policy { check c5() == 0 finish { } } }
command Store { fields { shelf struct Shelf } seal { return envelope::do_seal(serialize(this)) } open { return deserialize(envelope::do_open(envelope)) } policy { finish { } } }
function c0() int { return 0 }
function c1() int {
  check c0() == 0 && c0() == 0 && c0() == 0 && c0() == 0 && c0() == 0 && c0() == 0 && c0() == 0 && c0() == 0 && c0() == 0 && c0() == 0
  return 0
}
function c2() int {
  check c1() == 0 && c1() == 0 && c1() == 0 && c1() == 0 && c1() == 0 && c1() == 0 && c1() == 0 && c1() == 0 && c1() == 0 && c1() == 0
  return 0
}
function c3() int {
  check c2() == 0 && c2() == 0 && c2() == 0 && c2() == 0 && c2() == 0 && c2() == 0 && c2() == 0 && c2() == 0 && c2() == 0 && c2() == 0
  return 0
}
function c4() int {
  check c3() == 0 && c3() == 0 && c3() == 0 && c3() == 0 && c3() == 0 && c3() == 0 && c3() == 0 && c3() == 0 && c3() == 0 && c3() == 0
  return 0
}
function c5() int {
  check c4() == 0 && c4() == 0 && c4() == 0 && c4() == 0 && c4() == 0 && c4() == 0 && c4() == 0 && c4() == 0 && c4() == 0 && c4() == 0
  return 0
}
action start() { publish Start { } }
action set(s string, n int) { publish Set { s: s, n: n } }
action move(s string, old int, new int) { publish Move { s: s, old: old, new: new } }
action drop(s string) { publish Drop { s: s } }
action read(s string) { publish Read { s: s } }
action spin() { publish Spin { } }
action store(n int) {
  let sheet = Sheet { a: n, b: n, c: n, d: n, e: n, f: n, g: n, h: n }
  let book = Book { a: sheet, b: sheet, c: sheet, d: sheet, e: sheet, f: sheet, g: sheet, h: sheet }
  publish Store { shelf: Shelf { a: book, b: book, c: book, d: book, e: book, f: book, g: book, h: book, i: book } }
}
action twice(s string) { publish Set { s: s, n: 1 } publish Set { s: s, n: 2 } }
action sums() {
  check add(9223372036854775807, 1) is None
  check saturating_add(9223372036854775807, 1) == 9223372036854775807
  check sub(-9223372036854775808, 1) is None
  check saturating_sub(-9223372036854775808, 1) == -9223372036854775808
}
action over() { check unwrap add(9223372036854775807, 1) == 0 }
action most() { check c4() == 0 && c4() == 0 && c4() == 0 && c4() == 0 && c4() == 0 && c4() == 0 && c4() == 0 && c4() == 0 && c4() == 0 check c0() == 0 }
action more() { check c4() == 0 && c4() == 0 && c4() == 0 && c4() == 0 && c4() == 0 && c4() == 0 && c4() == 0 && c4() == 0 && c4() == 0 check c0() == 0 check c0() == 0 }
action never(s string) { publish Set { s: s, n: 1 } check !exists Mark[s: s] }
```
"#;
