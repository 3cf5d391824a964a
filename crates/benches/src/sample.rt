/// How many groups the rows fall into.
const GROUPS: u32 = 1024;

/// The second key of the row that is made in this turn: all numbers of 32 bits come, each once, in no order.
pub fn number(turn: u32) -> i64 {
    i64::from(turn.wrapping_mul(2_654_435_761))
}

/// The first key of the row that is made in this turn, and of the query that is made in it.
pub fn group(turn: u32) -> i64 {
    i64::from((turn.wrapping_mul(2_654_435_761) >> 7) % GROUPS)
}

/// A write of the row that is made in a turn.
#[derive(Clone, Copy)]
pub enum Change {
    Update(u32),
    Delete(u32),
    Create(u32),
}

/// The change of this turn: an update, a delete, and the create of what was deleted, by turns, of rows all over the base.
pub fn change_of(turn: u32, rows: u32) -> Change {
    let row = (turn / 3).wrapping_mul(7919) % rows.max(1);
    match turn % 3 {
        0 => Change::Update(row),
        1 => Change::Delete(row),
        _ => Change::Create(row),
    }
}
