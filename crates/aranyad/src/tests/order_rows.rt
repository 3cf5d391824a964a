// Commands of several priorities on two replicas, and the one order that both come to.
//
// The ids in the texts were computed by a program of its own (Python's hashlib), which writes each command's bytes by
// `docs/FORMATS.md`. The other words of the texts were worked out by hand from `docs/SCRIPT.md` and the policy.
use crate::tests::documents_of_rows::PRIORITIES;
use crate::tests::rows::{FIRST, Row};

/// What the five lines print with which each of these scripts begins.
pub const OPENED: &str = "replica a holds 0
replica b holds 0
init a: published 1, merges 0, cut 0, entries 1
join b: ok
sync b a: answers 1, added 1, repeat 0, refused 0
";

pub const ROWS: [Row; 8] = [
    Row {
        name: "the greater priority comes first, whatever came first; both make the same merge",
        policy: PRIORITIES,
        script: "replica a
replica b
init a begin()
join b a
sync b a
act a low(1)
act b high(2)
sync a b
sync b a
facts a
facts b
graph b
act a low(3)
act b high(4)
sync a b
graph a
facts a
",
        text: &[
            OPENED,
            "act a: published 1, merges 0, cut 1, entries 1
act b: published 1, merges 0, cut 1, entries 1
sync a b: answers 1, added 1, repeat 0, refused 0
sync b a: answers 1, added 1, repeat 0, refused 0
facts a: 3
  Count[]=>{n: 2}
  Log[at: 1]=>{v: 2}
  Log[at: 2]=>{v: 1}
facts b: 3
  Count[]=>{n: 2}
  Log[at: 1]=>{v: 2}
  Log[at: 2]=>{v: 1}
graph b: 3
  a492a1dda62438521dcf7ad1831bfbc975ad2bb33af5abb73232ae8dc96d87c5 init Begin
  c639cdef20b931d0c56f3f54e0c6423ed550d563fea4103804473b9a1be0779b basic High priority 10 parent a492a1dda62438521dcf7ad1831bfbc975ad2bb33af5abb73232ae8dc96d87c5
  581b6ee17ee0f1694600c2ff50471051e642782bd0b295ea1f3c6062a2c443fc basic Low priority 1 parent a492a1dda62438521dcf7ad1831bfbc975ad2bb33af5abb73232ae8dc96d87c5
",
            "act a: published 1, merges 1, cut 3, entries 1
act b: published 1, merges 1, cut 3, entries 1
sync a b: answers 1, added 1, repeat 0, refused 0
graph a: 6
  a492a1dda62438521dcf7ad1831bfbc975ad2bb33af5abb73232ae8dc96d87c5 init Begin
  581b6ee17ee0f1694600c2ff50471051e642782bd0b295ea1f3c6062a2c443fc basic Low priority 1 parent a492a1dda62438521dcf7ad1831bfbc975ad2bb33af5abb73232ae8dc96d87c5
  c639cdef20b931d0c56f3f54e0c6423ed550d563fea4103804473b9a1be0779b basic High priority 10 parent a492a1dda62438521dcf7ad1831bfbc975ad2bb33af5abb73232ae8dc96d87c5
  d0c7c791494b27da51ec911e2a66e9af159c36524cf6858e30617e4471758ef8 merge 581b6ee17ee0f1694600c2ff50471051e642782bd0b295ea1f3c6062a2c443fc c639cdef20b931d0c56f3f54e0c6423ed550d563fea4103804473b9a1be0779b
  e6a0601f98fb39bc76dae367df915948f3c28c477abb35b4659e791a1f522b09 basic Low priority 1 parent d0c7c791494b27da51ec911e2a66e9af159c36524cf6858e30617e4471758ef8
  b264886fc0134482ba67a29eae3fab3c4d35eab835fe35136fd5ad2c08caa1a0 basic High priority 10 parent d0c7c791494b27da51ec911e2a66e9af159c36524cf6858e30617e4471758ef8
facts a: 5
  Count[]=>{n: 4}
  Log[at: 1]=>{v: 2}
  Log[at: 2]=>{v: 1}
  Log[at: 3]=>{v: 4}
  Log[at: 4]=>{v: 3}
",
        ],
        ..FIRST
    },
    Row {
        name: "the lowest is placed last first, so a greater priority may wait behind its parent",
        policy: PRIORITIES,
        script: "replica a
replica b
init a begin()
join b a
sync b a
act a low(1)
act a high(2)
act b mid(3)
sync a b
facts a
",
        text: &[
            OPENED,
            "act a: published 1, merges 0, cut 1, entries 1
act a: published 1, merges 0, cut 2, entries 1
act b: published 1, merges 0, cut 1, entries 1
sync a b: answers 1, added 1, repeat 0, refused 0
facts a: 4
  Count[]=>{n: 3}
  Log[at: 1]=>{v: 1}
  Log[at: 2]=>{v: 2}
  Log[at: 3]=>{v: 3}
",
        ],
        ..FIRST
    },
    Row {
        name: "two finalize commands beside each other",
        policy: PRIORITIES,
        script: "replica a
replica b
init a begin()
join b a
sync b a
act a close()
act b close()
act b low(1)
sync a b
",
        text: &[
            OPENED,
            "act a: published 1, merges 0, cut 1, entries 1
act b: published 1, merges 0, cut 1, entries 1
act b: published 1, merges 0, cut 2, entries 1
sync a b: answers 1, added 0, repeat 0, refused 2
  refused 5c5757b6de8cc8a3fdd35f5d650faf10ab09651cf55d8bb5e050111d20a8f1c2: parallel finalize f62cd590fe79ef5b5b74c77072a13485ddf34f49b11369341147e5ccc14873f7
  refused 63e6e8b2d2bfe765ac207a883d515b551bde7c438b8f5603ec35e2c2a6567b9a: missing parent 5c5757b6de8cc8a3fdd35f5d650faf10ab09651cf55d8bb5e050111d20a8f1c2
",
        ],
        ..FIRST
    },
    Row {
        name: "an action asks for facts and counts them",
        policy: PRIORITIES,
        script: r#"replica a
replica b
init a begin()
join b a
sync b a
act a say("", 3, 1)
act a say("a", 0, 2)
act a say("", -1, 3)
act a probe(3)
act a probe(1)
facts a
"#,
        text: &[
            OPENED,
            r#"act a: published 1, merges 0, cut 1, entries 1
act a: published 1, merges 0, cut 2, entries 1
act a: published 1, merges 0, cut 3, entries 1
act a: published 0, merges 0, cut 4, entries 0
act a: refused check
facts a: 4
  Count[]=>{n: 0}
  Word[a: "", b: -1]=>{c: 3}
  Word[a: "", b: 3]=>{c: 1}
  Word[a: "a", b: 0]=>{c: 2}
"#,
        ],
        ..FIRST
    },
    Row {
        name: "of two claims of a slot the later one is recalled",
        policy: PRIORITIES,
        script: "replica a
replica b
init a begin()
join b a
sync b a
act a claim(1, 10)
act b claim(1, 10)
sync a b
effects a
",
        text: &[
            OPENED,
            "act a: published 1, merges 0, cut 1, entries 1
act b: published 1, merges 0, cut 1, entries 1
sync a b: answers 1, added 1, repeat 0, refused 0
effects a: 2
  Did { v: 10 }
  Lost { v: 10 } recalled
",
        ],
        ..FIRST
    },
    Row {
        name: "of two words that are one the later is void",
        policy: PRIORITIES,
        script: r#"replica a
replica b
init a begin()
join b a
sync b a
act a say("k", 1, 5)
act b say("k", 1, 5)
sync a b
facts a
effects a
"#,
        text: &[
            OPENED,
            r#"act a: published 1, merges 0, cut 1, entries 1
act b: published 1, merges 0, cut 1, entries 1
sync a b: answers 1, added 1, repeat 0, refused 0
facts a: 2
  Count[]=>{n: 0}
  Word[a: "k", b: 1]=>{c: 5}
effects a: 0
"#,
        ],
        ..FIRST
    },
    Row {
        name: "an action publishes for each row that stood as it began",
        policy: PRIORITIES,
        script: "replica a
replica b
init a begin()
join b a
sync b a
act a claim(1, 1)
act a claim(2, 2)
act a claim(3, 3)
act a free_all()
facts a
",
        text: &[
            OPENED,
            "act a: published 1, merges 0, cut 1, entries 1
act a: published 1, merges 0, cut 2, entries 1
act a: published 1, merges 0, cut 3, entries 1
act a: published 3, merges 0, cut 4, entries 3
facts a: 1
  Count[]=>{n: 0}
",
        ],
        ..FIRST
    },
    Row {
        name: "a finalize command comes before all that stands beside it",
        policy: PRIORITIES,
        script: "replica a
replica b
init a begin()
join b a
sync b a
act a close()
act b high(7)
sync b a
sync a b
act a low(8)
graph a
facts a
",
        text: &[
            OPENED,
            "act a: published 1, merges 0, cut 1, entries 1
act b: published 1, merges 0, cut 1, entries 1
sync b a: answers 1, added 1, repeat 0, refused 0
sync a b: answers 1, added 1, repeat 0, refused 0
act a: published 1, merges 1, cut 3, entries 1
graph a: 5
  a492a1dda62438521dcf7ad1831bfbc975ad2bb33af5abb73232ae8dc96d87c5 init Begin
  f62cd590fe79ef5b5b74c77072a13485ddf34f49b11369341147e5ccc14873f7 finalize Close parent a492a1dda62438521dcf7ad1831bfbc975ad2bb33af5abb73232ae8dc96d87c5
  8a721f8104952c3ef72f2f6eb89c20ca54ae21367f3fce417ff5cb1dee3b781a basic High priority 10 parent a492a1dda62438521dcf7ad1831bfbc975ad2bb33af5abb73232ae8dc96d87c5
  05168347defb39e75d7ca5c33609a534d6bd928e377fc3bf59deb67adb7c9736 merge 8a721f8104952c3ef72f2f6eb89c20ca54ae21367f3fce417ff5cb1dee3b781a f62cd590fe79ef5b5b74c77072a13485ddf34f49b11369341147e5ccc14873f7
  d5cd759382e40635171be212bd98018c2466bb57d106dd7ad8bf13dd7da193f7 basic Low priority 1 parent 05168347defb39e75d7ca5c33609a534d6bd928e377fc3bf59deb67adb7c9736
facts a: 3
  Count[]=>{n: 2}
  Log[at: 1]=>{v: 7}
  Log[at: 2]=>{v: 8}
",
        ],
        ..FIRST
    },
];
