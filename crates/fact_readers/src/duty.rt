ghost use Rattle.std.specs.Prelude.{◌≡◌, ◌++◌, ◌∷◌, [], IsTrue};
ghost use Rattle.fact_readers.specs.Readers.{Sees, seen_only, taught};

use crate::book::{Front, Naming};
use crate::told::Told;
use crate::trail::Trail;
use std::marker::Model;

/// What a reader's next read must see: the longest front that it knows of, and as many commits as each `tell_last` told.
#[derive(Drop)]
pub struct Duty<J: Naming> {
    seen: Front<J>,
    /// What was seen and what was told are fronts of it.
    longest: Front<J>,
    /// No `tell_last` told more commits.
    most: u64,
    /// No `tell_last` told fewer.
    fewest: u64,
    learnt: Trail,
}

impl<J: Naming> Model for Duty<J> {
    ghost use Rattle.std.specs.Coded.{codes};
    ghost use Rattle.base_bytes.specs.contracts.value.Value as value;
    ghost use Rattle.fact_readers.specs.Readers.{Reading};
    ghost use Rattle.fact_readers.specs.working.Duties.{IsDuty};

    ghost Value = { Reading };

    ghost coded = { Prim.hlevel (codes, value.the_row.coded) };

    ghost view = { λ d. record { seen = d.seen; learnt = d.learnt } };

    ghost invariant = { λ d. IsDuty d.longest d.most d.fewest d.seen d.learnt };
}

impl<J: Naming> Duty<J> {
    /// NoTrade was learnt since these commits were seen.
    pub fn new(seen: Front<J>) -> Duty<J>
        ensures { result ≡ seen_only seen }
    {
        let longest = seen.again();
        Duty {
            seen,
            longest,
            most: 0,
            fewest: u64::MAX,
            learnt: Trail::new(),
        }
    }

    /// Whether a read may see these commits.
    pub fn allows(&self, front: &Front<J>) -> bool
        ensures { IsTrue result → Sees self.now front.now }
    {
        let count = front.count();
        if !self.longest.begins(front) {
            return false;
        }
        if count < self.most {
            return false;
        }
        if self.fewest < count {
            return false;
        }
        true
    }

    /// The same with what was told.
    pub fn learn(&self, told: &Told<J>) -> Duty<J>
        ensures { result ≡ taught self.now told.now }
    {
        let longest = self.longest.longer(told.front());
        let seen = self.seen.again();
        let learnt = self.learnt.with(told);
        if !told.is_last() {
            return Duty {
                seen,
                longest,
                most: self.most,
                fewest: self.fewest,
                learnt,
            };
        }
        let count = told.front().count();
        Duty {
            seen,
            longest,
            most: self.most.max(count),
            fewest: self.fewest.min(count),
            learnt,
        }
    }
}
