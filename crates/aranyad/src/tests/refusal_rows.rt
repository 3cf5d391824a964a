// Lines of a script that are refused, each for its own reason.
//
// The ids in the texts were computed by a program of its own (Python's hashlib), which writes each command's bytes by
// `docs/FORMATS.md`. The other words of the texts were worked out by hand from `docs/SCRIPT.md` and the policy.
use crate::tests::documents_of_rows::CHANGES;
use crate::tests::rows::{FIRST, Row};

pub const ROWS: [Row; 2] = [
    Row {
        name: "actions that end in a check or a fault, and what their commands may end in",
        policy: CHANGES,
        script: r#"replica a
init a start()
act a set("k", 1)
act a set("", 1)
act a set("k", 2)
act a move("j", 1, 2)
act a move("k", 2, 3)
act a move("k", 1, 2)
act a drop("j")
act a read("j")
act a spin()
act a store(1)
act a start()
act a twice("x")
act a sums()
act a over()
act a most()
act a more()
act a never("y")
facts a
act a drop("k")
facts a
"#,
        text: &[
            r#"replica a holds 0
init a: published 1, merges 0, cut 0, entries 1
act a: published 1, merges 0, cut 1, entries 1
act a: refused command Set: check
act a: refused command Set: fault exists
act a: refused command Move: fault missing
act a: refused command Move: fault differs
act a: published 1, merges 0, cut 2, entries 1
act a: refused command Drop: fault missing
act a: refused command Read: fault unwrap
act a: refused command Spin: fault turns
act a: refused fault too long
act a: refused command Start: wrong kind
act a: refused command Set: fault exists
act a: published 0, merges 0, cut 3, entries 0
act a: refused fault unwrap
act a: published 0, merges 0, cut 3, entries 0
act a: refused fault turns
act a: refused check
facts a: 1
  Mark[s: "k"]=>{n: 2}
act a: published 1, merges 0, cut 3, entries 1
facts a: 0
"#,
        ],
        ..FIRST
    },
    Row {
        name: "replicas without a graph, or with another one, and messages that weren't made",
        policy: CHANGES,
        script: r#"replica a
replica b
replica c
replica d
act a set("k", 1)
ask a
join a b
sync a b
take a 1
next a 1
answer a 1
facts a
effects a
graph a
init a gone()
init a start(1)
init a set("k", 1)
init a over()
init a sums()
graph a
init a start()
init a start()
join a b
join b a
join b a
act b set("k", 1)
ask b
answer a 4
answer b 4
take b 4
next b 4
answer a 5
take c 5
next c 5
answer c 4
init d start()
take d 5
next d 5
answer d 4
sync d a
sync c a
take b 6
take b 5
next b 5
restart b
graph b
"#,
        text: &[
            r#"replica a holds 0
replica b holds 0
replica c holds 0
replica d holds 0
act a: refused no graph
ask a: refused no graph
join a: refused no graph
sync a b: refused no graph
take a: no message
next a: no message
answer a: no message
facts a: 0
effects a: 0
graph a: 0
init a: refused unknown action
init a: refused arguments
init a: refused command Set: wrong kind
init a: refused fault unwrap
init a: published 0, merges 0, cut 0, entries 0
graph a: 0
init a: published 1, merges 0, cut 0, entries 1
init a: refused has graph
join a: refused has graph
join b: ok
join b: refused has graph
act b: refused no graph
ask b: message 4
answer a: message 5, commands 1, more no
answer b: message 6, commands 0, more no
take b: refused malformed
next b: refused malformed
answer a: refused malformed
take c: refused no graph
next c: refused no graph
answer c: refused no graph
init d: published 1, merges 0, cut 0, entries 1
take d: refused other graph b1f12b5d92f3550efae92e06ea93e7d9779709230eaeb4d56faa9007348e26e2
next d: refused other graph b1f12b5d92f3550efae92e06ea93e7d9779709230eaeb4d56faa9007348e26e2
answer d: refused other graph b1f12b5d92f3550efae92e06ea93e7d9779709230eaeb4d56faa9007348e26e2
sync d a: refused other graph 53231beafd940d26048ba148b306a21497af22ac732f4c43c32a5112b86b0064
sync c a: refused no graph
take b: added 0, repeat 0, refused 0, cut 0, entries 0
take b: added 1, repeat 0, refused 0, cut 0, entries 1
next b: done
restart b: holds 1
graph b: 1
  b1f12b5d92f3550efae92e06ea93e7d9779709230eaeb4d56faa9007348e26e2 init Start
"#,
        ],
        ..FIRST
    },
];
