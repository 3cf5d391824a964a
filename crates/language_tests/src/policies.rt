//! Whole policies as users write them: those of the folder `examples`. Other crates of tests take them from here.

pub const FIRST: &str = "---
policy-version: 2
---
```policy
fact Item[n int]=>{by id}
effect Added { n int }
command Start { attributes { init: true } fields { } seal { return envelope::do_seal(serialize(this)) } open { return deserialize(envelope::do_open(envelope)) } policy { finish { } } }
command Put { fields { n int } seal { return envelope::do_seal(serialize(this)) } open { return deserialize(envelope::do_open(envelope)) }
  policy { check this.n > 0 let who = envelope::author_id(envelope)
    finish { create Item[n: this.n]=>{by: who} emit Added { n: this.n } } } }
action start() { publish Start { } }
action put(n int) { publish Put { n: n } }
```
";

pub const PRIORITIES: &str = r#"---
policy-version: 2
---
```policy
fact Count[]=>{n int}
fact Log[at int]=>{v int}
fact Slot[s int]=>{v int}
fact Word[a string, b int]=>{c int}
effect Did { v int }
effect Lost { v int }
finish function note(v int, old int, now int) {
  create Log[at: now]=>{v: v}
  update Count[]=>{n: old} to {n: now}
  emit Did { v: v }
}
command Begin { attributes { init: true } fields { } seal { return envelope::do_seal(serialize(this)) } open { return deserialize(envelope::do_open(envelope)) } policy { finish { create Count[]=>{n: 0} } } }
command Low { attributes { priority: 1 } fields { v int } seal { return envelope::do_seal(serialize(this)) } open { return deserialize(envelope::do_open(envelope)) } policy { let c = unwrap query Count[] let now = saturating_add(c.n, 1) finish { note(this.v, c.n, now) } } }
command Mid { attributes { priority: 5 } fields { v int } seal { return envelope::do_seal(serialize(this)) } open { return deserialize(envelope::do_open(envelope)) } policy { let c = unwrap query Count[] let now = saturating_add(c.n, 1) finish { note(this.v, c.n, now) } } }
command High { attributes { priority: 10 } fields { v int } seal { return envelope::do_seal(serialize(this)) } open { return deserialize(envelope::do_open(envelope)) } policy { let c = unwrap query Count[] let now = saturating_add(c.n, 1) finish { note(this.v, c.n, now) } } }
command Claim { attributes { priority: 5 } fields { s int, v int } seal { return envelope::do_seal(serialize(this)) } open { return deserialize(envelope::do_open(envelope)) }
  policy { check !exists Slot[s: this.s]
    finish { create Slot[s: this.s]=>{v: this.v} emit Did { v: this.v } } }
  recall { finish { emit Lost { v: this.v } } } }
command Free { attributes { priority: 10 } fields { s int } seal { return envelope::do_seal(serialize(this)) } open { return deserialize(envelope::do_open(envelope)) }
  policy { check exists Slot[s: this.s] finish { delete Slot[s: this.s] } } }
command Say { fields { a string, b int, c int } seal { return envelope::do_seal(serialize(this)) } open { return deserialize(envelope::do_open(envelope)) }
  policy { finish { create Word[a: this.a, b: this.b]=>{c: this.c} } } }
command Close { attributes { finalize: true } fields { } seal { return envelope::do_seal(serialize(this)) } open { return deserialize(envelope::do_open(envelope)) } policy { finish { } } }
action begin() { publish Begin { } }
action low(v int) { publish Low { v: v } }
action mid(v int) { publish Mid { v: v } }
action high(v int) { publish High { v: v } }
action claim(s int, v int) { publish Claim { s: s, v: v } }
action free(s int) { publish Free { s: s } }
action free_all() { map Slot[s: ?] as r { publish Free { s: r.s } } }
action say(a string, b int, c int) { publish Say { a: a, b: b, c: c } }
action probe(want int) {
  let r = unwrap query Word[a: "", b: ?]
  check r.c == want
  check count_up_to 5 Word[a: "", b: ?] == 2
}
action close() { publish Close { } }
```
"#;

pub const TEAM: &str = r#"---
policy-version: 2
---
```policy
use envelope
enum Role { Owner, Member }
fact User[user id]=>{role enum Role}
fact Note[topic string, n int]=>{text string}
effect UserAdded { user id, role enum Role }
effect UserRemoved { user id }
effect NoteWritten { topic string, n int, text string }
effect NoteLost { topic string, n int }
function is_owner(user id) bool { return exists User[user: user]=>{role: Role::Owner} }
finish function set_user(user id, role enum Role) {
  create User[user: user]=>{role: role}
  emit UserAdded { user: user, role: role }
}
command CreateTeam { attributes { init: true } fields { } seal { return envelope::do_seal(serialize(this)) } open { return deserialize(envelope::do_open(envelope)) }
  policy { let author = envelope::author_id(envelope) finish { set_user(author, Role::Owner) } } }
command AddUser { attributes { priority: 20 } fields { user id, role enum Role } seal { return envelope::do_seal(serialize(this)) } open { return deserialize(envelope::do_open(envelope)) }
  policy { let author = envelope::author_id(envelope)
    check is_owner(author)
    check !exists User[user: this.user]
    finish { set_user(this.user, this.role) } } }
command RemoveUser { attributes { priority: 30 } fields { user id } seal { return envelope::do_seal(serialize(this)) } open { return deserialize(envelope::do_open(envelope)) }
  policy { let author = envelope::author_id(envelope)
    check is_owner(author)
    let gone = check_unwrap query User[user: this.user]
    finish { delete User[user: gone.user] emit UserRemoved { user: gone.user } } } }
command WriteNote { attributes { priority: 10 } fields { topic string, n int, text string } seal { return envelope::do_seal(serialize(this)) } open { return deserialize(envelope::do_open(envelope)) }
  policy { let author = envelope::author_id(envelope)
    check exists User[user: author]
    check !exists Note[topic: this.topic, n: this.n]
    finish { create Note[topic: this.topic, n: this.n]=>{text: this.text}
      emit NoteWritten { topic: this.topic, n: this.n, text: this.text } } }
  recall { finish { emit NoteLost { topic: this.topic, n: this.n } } } }
command CloseEpoch { attributes { finalize: true } fields { } seal { return envelope::do_seal(serialize(this)) } open { return deserialize(envelope::do_open(envelope)) }
  policy { let author = envelope::author_id(envelope) check is_owner(author) finish { } } }
action create_team() { publish CreateTeam { } }
action add_user(user id, role enum Role) { publish AddUser { user: user, role: role } }
action remove_user(user id) { publish RemoveUser { user: user } }
action write_note(topic string, n int, text string) {
  publish WriteNote { topic: topic, n: n, text: text }
}
action write_two(topic string, a int, b int) {
  publish WriteNote { topic: topic, n: a, text: "one" }
  publish WriteNote { topic: topic, n: b, text: "two" }
}
action close_epoch() { publish CloseEpoch { } }
```
"#;
