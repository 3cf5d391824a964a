ghost use Rattle.std.specs.Prelude.{◌≡◌, ◌+◌, ◌-◌, ◌^◌, ◌<◌, [], IfOk, None};
ghost use Rattle.turn_lock.specs.Callers.{IsOf, IsAtRest, MayLeave, entered, left, met, numbers, split_off};
ghost use Rattle.turn_lock.specs.Turns.{IsIn, turns_by, count_of, Continues, longer};

use crate::board::{self, Board};
use crate::kept::Kept;
use crate::no_memory::NoMemory;
use crate::pass::Pass;
use atomic_table::Table;
use std::alloc::Global;
use std::marker::Model;
use std::snapshot::Snapshot;
use std::sync::Wait;

/// A value that callers use in turns. Contracts see which lock it is, and the opening of its value.
#[derive(Drop)]
pub struct TurnLock<T: Kept> {
    table: Board<T>,
}

impl<T: Kept> Model for TurnLock<T> {
    ghost use Rattle.std.specs.Prelude.{◌≡◌};
    ghost use Rattle.turn_lock.specs.Callers.{Lock};

    ghost Value = { Lock T.Opening };

    ghost view = { λ l. record { id = l.table.shared.table_id; opening = T.opening l.table.shared.key.value } };

    ghost invariant = { λ l. (l.table.shared.table_id.words ≡ 3) × (l.table.shared.table_id.slots ≡ 1) };
}

impl<T: Kept> TurnLock<T> {
    /// A lock with this value, and its first pass. The value has no turn and no idle turn yet; where there is no memory it is dropped.
    pub fn new<R: Wait + Sync>(
        rt: &R,
        alloc: Global,
        value: T,
    ) -> Result<(TurnLock<T>, Pass<T>), NoMemory>
        requires { (T.turns value ≡ []) × (T.idle value ≡ 0) }
        ensures opening { IfOk result (λ made. made.0.opening ≡ T.opening value) }
        ensures rest { IfOk result (λ made. IsAtRest made.0 made.1) }
        ensures bare { IfOk result (λ made. (made.1.others ≡ []) × (made.1.seen ≡ [])) }
    {
        let about = Snapshot::of(&value);
        let mut slots = Vec::with_capacity(alloc, 1)?;
        slots.push(Some(value))?;
        let Ok((table, mut seat)) = Table::new(alloc, &[0, 0, 0], slots, &about) else {
            return Err(NoMemory);
        };
        let number = board::draw_number(rt, &table, &mut seat);
        Ok((TurnLock { table }, Pass { seat, number }))
    }

    /// Waits for a turn, and gives the value. Put it back by `leave`: nobody else has a turn before.
    pub fn enter<R: Wait + Sync>(&self, rt: &R, pass: &mut Pass<T>) -> T
        requires { IsAtRest self.now pass.old }
        ensures turn { pass.new ≡ entered pass.old (T.turns result) (T.idle result) }
        ensures goes_on { Continues T.caller (numbers pass.old) pass.old.seen (T.turns result) }
        ensures few { count_of T.before (T.turns result) + T.idle result < 2 ^ 64 - 1 }
        ensures opening { T.opening result ≡ self.now.opening }
    {
        let ticket = board::draw_ticket(rt, &self.table, &mut pass.seat, pass.number);
        board::take_value(rt, &self.table, &mut pass.seat, ticket)
    }

    /// Ends the turn. The value has one turn more, by this pass's number, or one idle turn more. Nothing is asked of `rt` today: a turn is made of calls that take it.
    pub fn leave<R: Wait + Sync>(&self, _rt: &R, pass: &mut Pass<T>, value: T)
        requires lock { IsOf self.now pass.old }
        requires turn { MayLeave T.caller T.before pass.old (T.turns value) (T.idle value) }
        requires opening { T.opening value ≡ self.now.opening }
        ensures { pass.new ≡ left pass.old (T.turns value) }
    {
        board::put_value(&self.table, &mut pass.seat, pass.number, value);
    }

    /// A pass of its own number, for another caller. It has seen what this one has.
    pub fn split<R: Wait + Sync>(&self, rt: &R, pass: &mut Pass<T>) -> Pass<T>
        requires { IsAtRest self.now pass.old }
        ensures old { pass.new ≡ pass.old }
        ensures new { result ≡ split_off pass.old result.number }
        ensures number { ¬ IsIn result.number (numbers pass.old) }
        ensures turns { turns_by T.caller result.number pass.old.seen ≡ [] }
    {
        let mut seat = board::split(&self.table, &mut pass.seat);
        let number = board::draw_number(rt, &self.table, &mut seat);
        Pass { seat, number }
    }

    /// Takes another pass into this one, which keeps the numbers of both, and the longer list of turns.
    pub fn meet(&self, pass: &mut Pass<T>, other: Pass<T>)
        requires { IsAtRest self.now pass.old × IsAtRest self.now other }
        ensures met { pass.new ≡ met pass.old other (longer pass.old.seen other.seen) }
        ensures mine { Continues T.caller (numbers pass.old) pass.old.seen pass.new.seen }
        ensures other { Continues T.caller (numbers other) other.seen pass.new.seen }
    {
        let Pass { seat, number: _ } = other;
        board::meet(&self.table, &mut pass.seat, seat);
    }

    /// Ends the lock in a turn of its own, and gives the value. It waits for good where a pass was given up inside a turn.
    pub fn close<R: Wait + Sync>(self, rt: &R, pass: Pass<T>) -> T
        requires { IsAtRest self pass }
        ensures goes_on { Continues T.caller (numbers pass) pass.seen (T.turns result) }
        ensures opening { T.opening result ≡ self.opening }
    {
        let mut pass = pass;
        let value = self.enter(rt, &mut pass);
        let Pass { seat, number: _ } = pass;
        let TurnLock { table } = self;
        let mut closed = table.close_with(seat);
        drop(closed.take(0));
        closed.free();
        value
    }
}
