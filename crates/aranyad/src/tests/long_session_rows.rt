// Sessions of more commands than one message carries.
//
// The ids in the texts were computed by a program of its own (Python's hashlib), which writes each command's bytes by
// `docs/FORMATS.md`. The other words of the texts were worked out by hand from `docs/SCRIPT.md`.
use crate::tests::documents_of_rows::PRIORITIES;
use crate::tests::order_rows::OPENED;
use crate::tests::rows::{FIRST, Row};

/// What 64 acts print behind the opening.
const SIXTY_FOUR: &str = "act a: published 1, merges 0, cut 1, entries 1
act a: published 1, merges 0, cut 2, entries 1
act a: published 1, merges 0, cut 3, entries 1
act a: published 1, merges 0, cut 4, entries 1
act a: published 1, merges 0, cut 5, entries 1
act a: published 1, merges 0, cut 6, entries 1
act a: published 1, merges 0, cut 7, entries 1
act a: published 1, merges 0, cut 8, entries 1
act a: published 1, merges 0, cut 9, entries 1
act a: published 1, merges 0, cut 10, entries 1
act a: published 1, merges 0, cut 11, entries 1
act a: published 1, merges 0, cut 12, entries 1
act a: published 1, merges 0, cut 13, entries 1
act a: published 1, merges 0, cut 14, entries 1
act a: published 1, merges 0, cut 15, entries 1
act a: published 1, merges 0, cut 16, entries 1
act a: published 1, merges 0, cut 17, entries 1
act a: published 1, merges 0, cut 18, entries 1
act a: published 1, merges 0, cut 19, entries 1
act a: published 1, merges 0, cut 20, entries 1
act a: published 1, merges 0, cut 21, entries 1
act a: published 1, merges 0, cut 22, entries 1
act a: published 1, merges 0, cut 23, entries 1
act a: published 1, merges 0, cut 24, entries 1
act a: published 1, merges 0, cut 25, entries 1
act a: published 1, merges 0, cut 26, entries 1
act a: published 1, merges 0, cut 27, entries 1
act a: published 1, merges 0, cut 28, entries 1
act a: published 1, merges 0, cut 29, entries 1
act a: published 1, merges 0, cut 30, entries 1
act a: published 1, merges 0, cut 31, entries 1
act a: published 1, merges 0, cut 32, entries 1
act a: published 1, merges 0, cut 33, entries 1
act a: published 1, merges 0, cut 34, entries 1
act a: published 1, merges 0, cut 35, entries 1
act a: published 1, merges 0, cut 36, entries 1
act a: published 1, merges 0, cut 37, entries 1
act a: published 1, merges 0, cut 38, entries 1
act a: published 1, merges 0, cut 39, entries 1
act a: published 1, merges 0, cut 40, entries 1
act a: published 1, merges 0, cut 41, entries 1
act a: published 1, merges 0, cut 42, entries 1
act a: published 1, merges 0, cut 43, entries 1
act a: published 1, merges 0, cut 44, entries 1
act a: published 1, merges 0, cut 45, entries 1
act a: published 1, merges 0, cut 46, entries 1
act a: published 1, merges 0, cut 47, entries 1
act a: published 1, merges 0, cut 48, entries 1
act a: published 1, merges 0, cut 49, entries 1
act a: published 1, merges 0, cut 50, entries 1
act a: published 1, merges 0, cut 51, entries 1
act a: published 1, merges 0, cut 52, entries 1
act a: published 1, merges 0, cut 53, entries 1
act a: published 1, merges 0, cut 54, entries 1
act a: published 1, merges 0, cut 55, entries 1
act a: published 1, merges 0, cut 56, entries 1
act a: published 1, merges 0, cut 57, entries 1
act a: published 1, merges 0, cut 58, entries 1
act a: published 1, merges 0, cut 59, entries 1
act a: published 1, merges 0, cut 60, entries 1
act a: published 1, merges 0, cut 61, entries 1
act a: published 1, merges 0, cut 62, entries 1
act a: published 1, merges 0, cut 63, entries 1
act a: published 1, merges 0, cut 64, entries 1
";

pub const ROWS: [Row; 2] = [
    Row {
        name: "64 commands fit one message",
        policy: PRIORITIES,
        script: "replica a
replica b
init a begin()
join b a
sync b a
act a low(1)
act a low(1)
act a low(1)
act a low(1)
act a low(1)
act a low(1)
act a low(1)
act a low(1)
act a low(1)
act a low(1)
act a low(1)
act a low(1)
act a low(1)
act a low(1)
act a low(1)
act a low(1)
act a low(1)
act a low(1)
act a low(1)
act a low(1)
act a low(1)
act a low(1)
act a low(1)
act a low(1)
act a low(1)
act a low(1)
act a low(1)
act a low(1)
act a low(1)
act a low(1)
act a low(1)
act a low(1)
act a low(1)
act a low(1)
act a low(1)
act a low(1)
act a low(1)
act a low(1)
act a low(1)
act a low(1)
act a low(1)
act a low(1)
act a low(1)
act a low(1)
act a low(1)
act a low(1)
act a low(1)
act a low(1)
act a low(1)
act a low(1)
act a low(1)
act a low(1)
act a low(1)
act a low(1)
act a low(1)
act a low(1)
act a low(1)
act a low(1)
act a low(1)
act a low(1)
act a low(1)
act a low(1)
act a low(1)
act a low(1)
ask b
answer a 1
next b 2
sync b a
sync b a
",
        text: &[
            OPENED,
            SIXTY_FOUR,
            "ask b: message 1
answer a: message 2, commands 64, more no
next b: done
sync b a: answers 1, added 64, repeat 0, refused 0
sync b a: answers 1, added 0, repeat 0, refused 0
",
        ],
        ..FIRST
    },
    Row {
        name: "65 commands are two messages, of which the second can't be taken first",
        policy: PRIORITIES,
        script: "replica a
replica b
init a begin()
join b a
sync b a
act a low(1)
act a low(1)
act a low(1)
act a low(1)
act a low(1)
act a low(1)
act a low(1)
act a low(1)
act a low(1)
act a low(1)
act a low(1)
act a low(1)
act a low(1)
act a low(1)
act a low(1)
act a low(1)
act a low(1)
act a low(1)
act a low(1)
act a low(1)
act a low(1)
act a low(1)
act a low(1)
act a low(1)
act a low(1)
act a low(1)
act a low(1)
act a low(1)
act a low(1)
act a low(1)
act a low(1)
act a low(1)
act a low(1)
act a low(1)
act a low(1)
act a low(1)
act a low(1)
act a low(1)
act a low(1)
act a low(1)
act a low(1)
act a low(1)
act a low(1)
act a low(1)
act a low(1)
act a low(1)
act a low(1)
act a low(1)
act a low(1)
act a low(1)
act a low(1)
act a low(1)
act a low(1)
act a low(1)
act a low(1)
act a low(1)
act a low(1)
act a low(1)
act a low(1)
act a low(1)
act a low(1)
act a low(1)
act a low(1)
act a low(1)
act a low(1)
ask b
answer a 1
next b 2
answer a 3
take b 4
take b 2
take b 4
next b 4
act a low(1)
answer a 3
",
        text: &[
            OPENED,
            SIXTY_FOUR,
            "act a: published 1, merges 0, cut 65, entries 1
ask b: message 1
answer a: message 2, commands 64, more yes
next b: message 3
answer a: message 4, commands 1, more no
take b: added 0, repeat 0, refused 1, cut 1, entries 0
  refused 91f8121ff63b73ab4c4d447893acd3976622b23ab58286258ef882c8dcb958e1: missing parent 2299d36209949094daed144a3154f95e2209546ea90045f3dd66870fe13f90b6
take b: added 64, repeat 0, refused 0, cut 1, entries 64
take b: added 1, repeat 0, refused 0, cut 65, entries 1
next b: done
act a: published 1, merges 0, cut 66, entries 1
answer a: message 6, commands 2, more no
",
        ],
        ..FIRST
    },
];
