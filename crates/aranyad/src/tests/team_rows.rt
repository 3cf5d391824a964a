// Stories of a team: its owner adds and removes users, who write notes.
//
// The ids in the texts were computed by a program of its own (Python's hashlib), which writes each command's bytes by
// `docs/FORMATS.md`. The other words of the texts were worked out by hand from `docs/SCRIPT.md` and the policy.
use crate::tests::documents_of_rows::TEAM;
use crate::tests::rows::{FIRST, Row};

pub const ROWS: [Row; 6] = [
    Row {
        name: "three users, two notes and a closed epoch",
        policy: TEAM,
        script: r#"replica alice
replica bob
replica carol
init alice create_team()
act alice add_user(@bob, Role::Member)
act alice add_user(@carol, Role::Member)
join bob alice
sync bob alice
join carol alice
sync carol alice
act bob write_note("plan", 1, "ship")
act carol write_note("plan", 2, "test")
sync alice bob
sync alice carol
act alice close_epoch()
sync bob alice
sync carol alice
facts carol
"#,
        text: &[
            r#"replica alice holds 0
replica bob holds 0
replica carol holds 0
init alice: published 1, merges 0, cut 0, entries 1
act alice: published 1, merges 0, cut 1, entries 1
act alice: published 1, merges 0, cut 2, entries 1
join bob: ok
sync bob alice: answers 1, added 3, repeat 0, refused 0
join carol: ok
sync carol alice: answers 1, added 3, repeat 0, refused 0
act bob: published 1, merges 0, cut 3, entries 1
act carol: published 1, merges 0, cut 3, entries 1
sync alice bob: answers 1, added 1, repeat 0, refused 0
sync alice carol: answers 1, added 1, repeat 0, refused 0
act alice: published 1, merges 1, cut 5, entries 1
sync bob alice: answers 1, added 3, repeat 0, refused 0
sync carol alice: answers 1, added 3, repeat 0, refused 0
facts carol: 5
  User[user: id:5b6793d59508f3e0888bdc68816a1cde6fd4dc5d547119e84faf2aa3c877c4a4]=>{role: Role::Member}
  User[user: id:9e45386d67a07521261d26ddd4939615437659a5a4508a2adbaecda43f584de7]=>{role: Role::Owner}
  User[user: id:b53c1a9f75a71058921d8d1d517b8dd275ec55a5dcbaf716c4840c40e9ed049f]=>{role: Role::Member}
  Note[topic: "plan", n: 1]=>{text: "ship"}
  Note[topic: "plan", n: 2]=>{text: "test"}
"#,
        ],
        ..FIRST
    },
    Row {
        name: "an action whose second note is refused keeps neither",
        policy: TEAM,
        script: r#"replica alice
init alice create_team()
act alice write_two("x", 1, 1)
facts alice
effects alice
graph alice
"#,
        text: &[
            r#"replica alice holds 0
init alice: published 1, merges 0, cut 0, entries 1
act alice: refused command WriteNote: check
facts alice: 1
  User[user: id:9e45386d67a07521261d26ddd4939615437659a5a4508a2adbaecda43f584de7]=>{role: Role::Owner}
effects alice: 1
  UserAdded { user: id:9e45386d67a07521261d26ddd4939615437659a5a4508a2adbaecda43f584de7, role: Role::Owner }
graph alice: 1
  c0f0d271c2fb41d6b281439732c850cc71ec0304f7ccf4db01a5ab0e2cbcb333 init CreateTeam
"#,
        ],
        ..FIRST
    },
    Row {
        name: "a note of a user who was removed beside it is recalled",
        policy: TEAM,
        script: r#"replica alice
replica bob
init alice create_team()
act alice add_user(@bob, Role::Member)
join bob alice
sync bob alice
act bob write_note("plan", 1, "ship")
act alice remove_user(@bob)
ask bob
answer alice 1
take bob 2
effects bob
facts bob
sync alice bob
effects alice
"#,
        text: &[
            r#"replica alice holds 0
replica bob holds 0
init alice: published 1, merges 0, cut 0, entries 1
act alice: published 1, merges 0, cut 1, entries 1
join bob: ok
sync bob alice: answers 1, added 2, repeat 0, refused 0
act bob: published 1, merges 0, cut 2, entries 1
act alice: published 1, merges 0, cut 2, entries 1
ask bob: message 1
answer alice: message 2, commands 1, more no
take bob: added 1, repeat 0, refused 0, cut 2, entries 2
effects bob: 4
  UserAdded { user: id:9e45386d67a07521261d26ddd4939615437659a5a4508a2adbaecda43f584de7, role: Role::Owner }
  UserAdded { user: id:b53c1a9f75a71058921d8d1d517b8dd275ec55a5dcbaf716c4840c40e9ed049f, role: Role::Member }
  UserRemoved { user: id:b53c1a9f75a71058921d8d1d517b8dd275ec55a5dcbaf716c4840c40e9ed049f }
  NoteLost { topic: "plan", n: 1 } recalled
facts bob: 1
  User[user: id:9e45386d67a07521261d26ddd4939615437659a5a4508a2adbaecda43f584de7]=>{role: Role::Owner}
sync alice bob: answers 1, added 1, repeat 0, refused 0
effects alice: 4
  UserAdded { user: id:9e45386d67a07521261d26ddd4939615437659a5a4508a2adbaecda43f584de7, role: Role::Owner }
  UserAdded { user: id:b53c1a9f75a71058921d8d1d517b8dd275ec55a5dcbaf716c4840c40e9ed049f, role: Role::Member }
  UserRemoved { user: id:b53c1a9f75a71058921d8d1d517b8dd275ec55a5dcbaf716c4840c40e9ed049f }
  NoteLost { topic: "plan", n: 1 } recalled
"#,
        ],
        ..FIRST
    },
    Row {
        name: "the graph of a closed epoch",
        policy: TEAM,
        script: r#"replica alice
replica bob
init alice create_team()
act alice add_user(@bob, Role::Member)
join bob alice
sync bob alice
act bob write_note("plan", 1, "ship")
act alice write_note("plan", 2, "test")
sync alice bob
act alice close_epoch()
graph alice
act bob close_epoch()
"#,
        text: &[
            r#"replica alice holds 0
replica bob holds 0
init alice: published 1, merges 0, cut 0, entries 1
act alice: published 1, merges 0, cut 1, entries 1
join bob: ok
sync bob alice: answers 1, added 2, repeat 0, refused 0
act bob: published 1, merges 0, cut 2, entries 1
act alice: published 1, merges 0, cut 2, entries 1
sync alice bob: answers 1, added 1, repeat 0, refused 0
act alice: published 1, merges 1, cut 4, entries 1
graph alice: 6
  c0f0d271c2fb41d6b281439732c850cc71ec0304f7ccf4db01a5ab0e2cbcb333 init CreateTeam
  7c3aba38d8db733eb750bbd47da0782908fab0a1856a79541b5d439fe22ee6fe basic AddUser priority 20 parent c0f0d271c2fb41d6b281439732c850cc71ec0304f7ccf4db01a5ab0e2cbcb333
  43e78ebc73689a191669f97f9300cf5570115b876c74347910fdf703f58e1fb5 basic WriteNote priority 10 parent 7c3aba38d8db733eb750bbd47da0782908fab0a1856a79541b5d439fe22ee6fe
  548ee46c822deea6bc7ccef0cf9794e456f7edde9f36c6060a0ee609a7477ef7 basic WriteNote priority 10 parent 7c3aba38d8db733eb750bbd47da0782908fab0a1856a79541b5d439fe22ee6fe
  0cf3332d201c12579a3f71b61c03c93b003881060bf8f61e9a37ada5940ff6f9 merge 43e78ebc73689a191669f97f9300cf5570115b876c74347910fdf703f58e1fb5 548ee46c822deea6bc7ccef0cf9794e456f7edde9f36c6060a0ee609a7477ef7
  2e238807347fe67be45e3dbd9b957fa84b39b1e82b06ba4add2c4d5e829f39c5 finalize CloseEpoch parent 0cf3332d201c12579a3f71b61c03c93b003881060bf8f61e9a37ada5940ff6f9
act bob: refused command CloseEpoch: check
"#,
        ],
        ..FIRST
    },
    Row {
        name: "the first story, with two restarts in the middle",
        policy: TEAM,
        script: r#"replica alice
replica bob
replica carol
init alice create_team()
act alice add_user(@bob, Role::Member)
act alice add_user(@carol, Role::Member)
join bob alice
sync bob alice
join carol alice
sync carol alice
act bob write_note("plan", 1, "ship")
act carol write_note("plan", 2, "test")
restart alice
restart bob
sync alice bob
sync alice carol
act alice close_epoch()
sync bob alice
sync carol alice
facts carol
"#,
        text: &[
            r#"replica alice holds 0
replica bob holds 0
replica carol holds 0
init alice: published 1, merges 0, cut 0, entries 1
act alice: published 1, merges 0, cut 1, entries 1
act alice: published 1, merges 0, cut 2, entries 1
join bob: ok
sync bob alice: answers 1, added 3, repeat 0, refused 0
join carol: ok
sync carol alice: answers 1, added 3, repeat 0, refused 0
act bob: published 1, merges 0, cut 3, entries 1
act carol: published 1, merges 0, cut 3, entries 1
restart alice: holds 3
restart bob: holds 4
sync alice bob: answers 1, added 1, repeat 0, refused 0
sync alice carol: answers 1, added 1, repeat 0, refused 0
act alice: published 1, merges 1, cut 5, entries 1
sync bob alice: answers 1, added 3, repeat 0, refused 0
sync carol alice: answers 1, added 3, repeat 0, refused 0
facts carol: 5
  User[user: id:5b6793d59508f3e0888bdc68816a1cde6fd4dc5d547119e84faf2aa3c877c4a4]=>{role: Role::Member}
  User[user: id:9e45386d67a07521261d26ddd4939615437659a5a4508a2adbaecda43f584de7]=>{role: Role::Owner}
  User[user: id:b53c1a9f75a71058921d8d1d517b8dd275ec55a5dcbaf716c4840c40e9ed049f]=>{role: Role::Member}
  Note[topic: "plan", n: 1]=>{text: "ship"}
  Note[topic: "plan", n: 2]=>{text: "test"}
"#,
        ],
        ..FIRST
    },
    Row {
        name: "the recalled note, with two restarts before the messages",
        policy: TEAM,
        script: r#"replica alice
replica bob
init alice create_team()
act alice add_user(@bob, Role::Member)
join bob alice
sync bob alice
act bob write_note("plan", 1, "ship")
act alice remove_user(@bob)
restart bob
restart alice
ask bob
answer alice 1
take bob 2
effects bob
facts bob
sync alice bob
effects alice
"#,
        text: &[
            r#"replica alice holds 0
replica bob holds 0
init alice: published 1, merges 0, cut 0, entries 1
act alice: published 1, merges 0, cut 1, entries 1
join bob: ok
sync bob alice: answers 1, added 2, repeat 0, refused 0
act bob: published 1, merges 0, cut 2, entries 1
act alice: published 1, merges 0, cut 2, entries 1
restart bob: holds 3
restart alice: holds 3
ask bob: message 1
answer alice: message 2, commands 1, more no
take bob: added 1, repeat 0, refused 0, cut 2, entries 2
effects bob: 4
  UserAdded { user: id:9e45386d67a07521261d26ddd4939615437659a5a4508a2adbaecda43f584de7, role: Role::Owner }
  UserAdded { user: id:b53c1a9f75a71058921d8d1d517b8dd275ec55a5dcbaf716c4840c40e9ed049f, role: Role::Member }
  UserRemoved { user: id:b53c1a9f75a71058921d8d1d517b8dd275ec55a5dcbaf716c4840c40e9ed049f }
  NoteLost { topic: "plan", n: 1 } recalled
facts bob: 1
  User[user: id:9e45386d67a07521261d26ddd4939615437659a5a4508a2adbaecda43f584de7]=>{role: Role::Owner}
sync alice bob: answers 1, added 1, repeat 0, refused 0
effects alice: 4
  UserAdded { user: id:9e45386d67a07521261d26ddd4939615437659a5a4508a2adbaecda43f584de7, role: Role::Owner }
  UserAdded { user: id:b53c1a9f75a71058921d8d1d517b8dd275ec55a5dcbaf716c4840c40e9ed049f, role: Role::Member }
  UserRemoved { user: id:b53c1a9f75a71058921d8d1d517b8dd275ec55a5dcbaf716c4840c40e9ed049f }
  NoteLost { topic: "plan", n: 1 } recalled
"#,
        ],
        ..FIRST
    },
];
