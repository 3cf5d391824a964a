use samples::turn::Turn;

/// How many turns a caller made, and the most turns of others between two of them.
#[derive(Clone, Copy)]
pub struct Share {
    pub turns: u64,
    pub between: u64,
}

/// The share of one number.
pub fn share_of(turns: &[Turn], number: u32) -> Share {
    let mut share = Share {
        turns: 0,
        between: 0,
    };
    let mut others = 0u64;
    for turn in turns {
        if turn.caller == number {
            if share.turns > 0 {
                share.between = share.between.max(others);
            }
            share.turns = share.turns.saturating_add(1);
            others = 0;
        } else {
            others = others.saturating_add(1);
        }
    }
    share
}
