ghost use Rattle.std.specs.Prelude.{◌≡◌, [], IfOk, IfErr, IsTrue, MatchResult, length, min};
ghost use Rattle.fact_readers.specs.Changes.{version};
ghost use Rattle.fact_readers.specs.Readers.{Sees, seen_only, taught};
ghost use Rattle.fact_store.specs.Matching.{first_row, row_count};
ghost use Rattle.fact_store.specs.Rows.{are_keys};

use crate::book::{Front, Naming};
use crate::duty::Duty;
use crate::told::Told;
use crate::version::Version;
use base_bytes::NoMemory;
use core::mem::replace_with;
use crossbeam_utils::rule::Unruled;
use fact_store::{Row, Wanted};
use left_right::reader::{Reader, Reading};
use std::alloc::Global;
use std::marker::Model;
use std::sync::Wait;
use std::thread;

/// A place at the two copies.
pub type Seat<J> = Reader<Version<J>, (), Unruled>;

/// A place with the copy that it reads.
pub type Look<J> = Reading<Version<J>, (), Unruled>;

/// A seat with what its next read must see. It may go to another thread where both may: this holds of a struct that is
/// generic in both, and no proof of it is found for one that names them.
#[derive(Drop)]
pub struct ReaderOf<T: Drop, D: Drop> {
    seat: Reader<T, (), Unruled>,
    duty: D,
}

/// Answers from what is published. Contracts see it as the commits that it has seen, and what it has learnt since.
pub type FactReader<J> = ReaderOf<Version<J>, Duty<J>>;

impl<T: Drop, D: Drop> Model for ReaderOf<T, D> {
    ghost Value = { D };

    ghost view = { λ r. r.duty };

    ghost invariant = { λ r. Unit {0} };
}

/// Begins a read, where the reader is let in and may see what is published.
fn look<J: Naming>(seat: Seat<J>, duty: &Duty<J>) -> Result<(Look<J>, Front<J>), Seat<J>>
    ensures { IfOk result (λ r. (r.0.part.value ≡ r.1) × Sees duty.now r.1) }
{
    match seat.enter_as::<Unruled>() {
        Ok(look) => {
            let front = look.get().front();
            if duty.allows(&front) {
                Ok((look, front))
            } else {
                Err(look.leave())
            }
        }
        Err(seat) => Err(seat),
    }
}

/// Tries until a read has begun. With one writer that may publish, what is published is what a read may see;
/// no clause can say so, and each front is compared instead.
fn go_in<J: Naming, R: Wait>(rt: &R, seat: Seat<J>, duty: &Duty<J>) -> (Look<J>, Front<J>)
    ensures { (result.0.part.value ≡ result.1) × Sees duty.now result.1 }
{
    let mut seat = seat;
    for _ in rt.forever() {
        match look(seat, duty) {
            Ok(found) => return found,
            Err(back) => seat = back,
        }
        thread::yield_now();
    }
    unreachable!()
}

fn count_in<J: Naming, R: Wait>(
    rt: &R,
    seat: Seat<J>,
    duty: &Duty<J>,
    wanted: &Wanted,
    limit: u64,
) -> (Seat<J>, (Front<J>, u64))
    requires { IsTrue (are_keys wanted.now.keys) }
    ensures sees { Sees duty.now result.1.0 }
    ensures count { result.1.1 ≡ min limit (row_count wanted.now (version result.1.0)) }
{
    let (look, front) = go_in(rt, seat, duty);
    let found = look.get().count_up_to(wanted, limit);
    (look.leave(), (front, found))
}

fn first_in<J: Naming, R: Wait>(
    rt: &R,
    alloc: Global,
    seat: Seat<J>,
    duty: &Duty<J>,
    wanted: &Wanted,
) -> (Seat<J>, Result<(Front<J>, Option<Row>), NoMemory>)
    requires { IsTrue (are_keys wanted.now.keys) }
    ensures { IfOk result.1 (λ r. Sees duty.now r.0 × (r.1 ≡ first_row wanted.now (version r.0))) }
{
    let (look, front) = go_in(rt, seat, duty);
    let found = look.get().first(alloc, wanted);
    let seat = look.leave();
    match found {
        Ok(row) => (seat, Ok((front, row))),
        Err(_) => (seat, Err(NoMemory)),
    }
}

impl<J: Naming> ReaderOf<Version<J>, Duty<J>> {
    pub(crate) fn new(seat: Seat<J>, front: Front<J>) -> FactReader<J>
        ensures { result ≡ seen_only front }
    {
        ReaderOf {
            seat,
            duty: Duty::new(front),
        }
    }

    /// How many commits it sees, and how many rows match after them, counted up to the limit. It may wait.
    pub fn count_up_to<R: Wait + Sync>(&mut self, rt: &R, wanted: &Wanted, limit: u64) -> (u64, u64)
        requires { IsTrue (are_keys wanted.now.keys) }
        ensures sees { Sees self.old self.new.seen }
        ensures count { result.0 ≡ length self.new.seen }
        ensures answer { result.1 ≡ min limit (row_count wanted.now (version self.new.seen)) }
        ensures learnt { self.new.learnt ≡ [] }
    {
        let duty = &self.duty;
        let (front, found) = replace_with(
            &mut self.seat,
            (rt, duty, wanted),
            |seat, (rt, duty, wanted)| -> (Seat<J>, (Front<J>, u64))
                requires { IsTrue (are_keys wanted.now.keys) }
                ensures sees { Sees duty.entry.now result.1.0 }
                ensures count { result.1.1 ≡ min limit (row_count wanted.entry.now (version result.1.0)) }
            { count_in(rt, seat, duty, wanted, limit) },
        );
        let count = front.count();
        self.duty = Duty::new(front);
        (count, found)
    }

    /// How many commits it sees, and the first row that matches after them. It may wait.
    pub fn first<R: Wait + Sync>(
        &mut self,
        rt: &R,
        alloc: Global,
        wanted: &Wanted,
    ) -> Result<(u64, Option<Row>), NoMemory>
        requires { IsTrue (are_keys wanted.now.keys) }
        ensures sees { IfOk result (λ r. Sees self.old self.new.seen) }
        ensures answer { IfOk result (λ r. (r.0 ≡ length self.new.seen) × (r.1 ≡ first_row wanted.now (version self.new.seen))) }
        ensures learnt { IfOk result (λ r. self.new.learnt ≡ []) }
        ensures refused { IfErr result (λ why. self.new ≡ self.old) }
    {
        let duty = &self.duty;
        let found = replace_with(
            &mut self.seat,
            (rt, duty, wanted),
            |seat, (rt, duty, wanted)| -> (Seat<J>, Result<(Front<J>, Option<Row>), NoMemory>)
                requires { IsTrue (are_keys wanted.now.keys) }
                ensures { IfOk result.1 (λ r. Sees duty.entry.now r.0 × (r.1 ≡ first_row wanted.entry.now (version r.0))) }
            { first_in(rt, alloc, seat, duty, wanted) },
        );
        let (front, row) = found?;
        let count = front.count();
        self.duty = Duty::new(front);
        Ok((count, row))
    }

    /// Its next read sees no less than was told, and just that where a `tell_last` told it.
    pub fn learn(&mut self, told: Told<J>)
        ensures { self.new ≡ taught self.old told }
    {
        self.duty = self.duty.learn(&told);
    }
}
