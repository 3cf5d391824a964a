//! The steps of a seat at the table.
ghost use Rattle.std.specs.Prelude.{◌≡◌, ◌+◌, ◌-◌, ◌^◌, ◌<◌, [], ◌∷◌, true, false, Some, None};
ghost use Rattle.turn_lock.specs.Turns.{IsIn, turns_by, count_of, Continues, AddsOne};
ghost use Rattle.turn_lock.specs.Seats.{past};
ghost use Rattle.turn_lock.specs.working.Steps.{numbered, with_ticket, inside_view, left_view, split_view, joined, merged};

use crate::kept::Kept;
use crate::steps::{Cut, Glue, InTurn, Look, Number, Release, Same, Settle, Ticket};
use crate::view::View;
use atomic_table::{Seat, Table};
use std::alloc::Global;
use std::snapshot::Snapshot;
use std::sync::Wait;
use std::thread;

pub type Board<T: Kept> = Table<
    Option<T>,
    View<T::Turn, T::Opening>,
    Snapshot<T>,
    InTurn<T>,
    Global,
>;

pub type Chair<T: Kept> = Seat<Option<T>, View<T::Turn, T::Opening>>;

/// The words of the table.
const TICKETS: usize = 0;

const TURNS: usize = 1;

const CALLERS: usize = 2;

/// Draws a caller's number that nobody has.
pub fn draw_number<T: Kept, R: Wait>(rt: &R, table: &Board<T>, seat: &mut Chair<T>) -> u32
    requires own { (seat.old.table_id ≡ table.now.shared.table_id) × (table.now.shared.table_id.words ≡ 3) }
    ensures own { seat.new.table_id ≡ seat.old.table_id }
    ensures view { seat.new.me ≡ (numbered seat.old.me.0 result, seat.old.me.1) }
    ensures fresh { ¬ IsIn result seat.old.me.0.known × (turns_by T.caller result seat.old.me.0.mine.seen ≡ []) }
{
    for _ in rt.forever() {
        let next = table.shared.load::<Same>(seat, CALLERS);
        if next < u32::MAX as u64
            && table
                .shared
                .compare_exchange::<Number<T>>(seat, CALLERS, next, next + 1)
                == next
        {
            return next as u32;
        }
    }
    unreachable!()
}

/// Draws a ticket for the next turn.
pub fn draw_ticket<T: Kept, R: Wait>(
    rt: &R,
    table: &Board<T>,
    seat: &mut Chair<T>,
    number: u32,
) -> u64
    requires own { (seat.old.table_id ≡ table.now.shared.table_id) × (table.now.shared.table_id.words ≡ 3) }
    requires number { IsIn number seat.old.me.0.mine.numbers }
    requires outside { (seat.old.me.0.ticket ≡ None) × (seat.old.me.0.inside ≡ false) }
    ensures own { seat.new.table_id ≡ seat.old.table_id }
    ensures view { seat.new.me ≡ (with_ticket seat.old.me.0 result, seat.old.me.1) }
{
    for _ in rt.forever() {
        let next = table.shared.load::<Same>(seat, TICKETS);
        if next < u64::MAX
            && table
                .shared
                .compare_exchange::<Ticket<T>>(seat, TICKETS, next, next + 1)
                == next
        {
            return next;
        }
    }
    unreachable!()
}

/// Waits until the turn of this ticket has come, and takes the value.
pub fn take_value<T: Kept, R: Wait>(rt: &R, table: &Board<T>, seat: &mut Chair<T>, ticket: u64) -> T
    requires own { (seat.old.table_id ≡ table.now.shared.table_id) × (table.now.shared.table_id.words ≡ 3) }
    requires waits { (seat.old.me.0.ticket ≡ Some ticket) × (seat.old.me.0.inside ≡ false) }
    ensures own { seat.new.table_id ≡ seat.old.table_id }
    ensures view { seat.new.me ≡ (inside_view seat.old.me.0 (T.turns result) (T.idle result), (0, None) ∷ seat.old.me.1) }
    ensures goes_on { Continues T.caller seat.old.me.0.mine.numbers seat.old.me.0.mine.seen (T.turns result) }
    ensures few { count_of T.before (T.turns result) + T.idle result < 2 ^ 64 - 1 }
    ensures opening { (o : T.Opening) → seat.old.me.0.opening ≡ o ∷ [] → T.opening result ≡ o }
{
    for _ in rt.forever() {
        if table.shared.load::<Look<T>>(seat, TURNS) == ticket {
            return table.shared.exchange(seat, 0, None).unwrap();
        }
        thread::yield_now();
    }
    unreachable!()
}

/// Puts the value back, and ends the turn.
pub fn put_value<T: Kept>(table: &Board<T>, seat: &mut Chair<T>, number: u32, value: T)
    requires own { (seat.old.table_id ≡ table.now.shared.table_id) × (table.now.shared.table_id.words ≡ 3) }
    requires inside { (seat.old.me.0.inside ≡ true) × (seat.old.me.0.other ≡ past [] []) × (seat.old.me.1 ≡ (0, None) ∷ []) × IsIn number seat.old.me.0.mine.numbers }
    requires value { AddsOne T.caller T.before number seat.old.me.0.mine.seen seat.old.me.0.idle (T.turns value) (T.idle value) × (T.opening value ≡ T.opening table.now.shared.key.value) }
    ensures own { seat.new.table_id ≡ seat.old.table_id }
    ensures view { seat.new.me ≡ (left_view seat.old.me.0 (T.turns value), []) }
{
    let Some(_gone) = table.shared.exchange(seat, 0, Some(value)) else {
        table.shared.fetch_add::<Release<T>>(seat, TURNS, 1);
        return;
    };
    unreachable!()
}

/// A new seat that has seen what this one has.
pub fn split<T: Kept>(table: &Board<T>, seat: &mut Chair<T>) -> Chair<T>
    requires own { (seat.old.table_id ≡ table.now.shared.table_id) × (table.now.shared.table_id.words ≡ 3) }
    ensures own { (seat.new.table_id ≡ seat.old.table_id) × (seat.new.me ≡ seat.old.me) }
    ensures new { (result.table_id ≡ seat.old.table_id) × (result.me ≡ (split_view seat.old.me.0, [])) }
{
    table.shared.split_seat::<Cut>(seat)
}

/// Takes another seat into this one.
pub fn meet<T: Kept>(table: &Board<T>, seat: &mut Chair<T>, other: Chair<T>)
    requires own { (seat.old.table_id ≡ table.now.shared.table_id) × (table.now.shared.table_id.words ≡ 3) }
    requires other { (other.table_id ≡ table.now.shared.table_id) × (other.me.1 ≡ []) }
    requires outside { (seat.old.me.0.inside ≡ false) × (other.me.0.inside ≡ false) × (other.me.0.ticket ≡ None) }
    ensures own { seat.new.table_id ≡ seat.old.table_id }
    ensures view { seat.new.me ≡ (merged (joined seat.old.me.0 other.me.0), seat.old.me.1) }
    ensures mine { Continues T.caller seat.old.me.0.mine.numbers seat.old.me.0.mine.seen (merged (joined seat.old.me.0 other.me.0)).mine.seen }
    ensures other { Continues T.caller other.me.0.mine.numbers other.me.0.mine.seen (merged (joined seat.old.me.0 other.me.0)).mine.seen }
{
    table.shared.join_seat::<Glue>(seat, other);
    table.shared.load::<Settle<T>>(seat, TICKETS);
}
