ghost use Rattle.std.specs.Prelude.{◌≡◌, ◌+◌, ◌++◌, ◌∷◌, [], IfOk, IsTrue, length, min};
ghost use mathlib.Core.List.{IsPrefix};
ghost use Rattle.fact_readers.specs.Changes.{version};
ghost use Rattle.fact_store.specs.Matching.{first_row, row_count};
ghost use Rattle.fact_store.specs.Rows.{are_keys};

use crate::book::{Front, Naming};
use crate::change::{RowChange, change_all};
use crate::commit::Commit;
use base_bytes::NoMemory;
use fact_store::{FactBase, Facts, Row, Wanted};
use left_right::Absorb;
use std::alloc::{AllocError, Global};
use std::marker::Model;

/// The rows after a front of the book's commits: one of the two copies. Contracts see it as these commits.
#[derive(Drop)]
pub struct Version<J: Naming> {
    alloc: Global,
    facts: Facts,
    front: Front<J>,
}

impl<J: Naming> Model for Version<J> {
    ghost use Rattle.std.specs.Coded.{codes};
    ghost use Rattle.base_bytes.specs.contracts.value.Value as value;
    ghost use Rattle.std.specs.Prelude.{◌≡◌, List};
    ghost use Rattle.fact_readers.specs.declared.change.RowChange.{RowChange};
    ghost use Rattle.fact_readers.specs.Changes.{version};

    ghost Value = { List (List RowChange) };

    ghost coded = { Prim.hlevel (codes, value.the_row.coded) };

    ghost view = { λ v. v.front };

    ghost invariant = { λ v. ⟦<Facts as FactBase>⟧.rows v.facts ≡ version v.front };
}

impl<J: Naming> Version<J> {
    /// No rows, after no commits.
    pub fn new(alloc: Global, front: Front<J>) -> Version<J>
        requires { front ≡ [] }
        ensures { result ≡ [] }
    {
        Version {
            alloc,
            facts: Facts::empty(alloc),
            front,
        }
    }

    /// The commits.
    pub fn front(&self) -> Front<J>
        ensures { result ≡ self.now }
    {
        self.front.again()
    }

    pub fn first(&self, alloc: Global, wanted: &Wanted) -> Result<Option<Row>, NoMemory>
        requires { IsTrue (are_keys wanted.now.keys) }
        ensures { IfOk result (λ found. found ≡ first_row wanted.now (version self.now)) }
    {
        self.facts.first(alloc, wanted)
    }

    pub fn count_up_to(&self, wanted: &Wanted, limit: u64) -> u64
        requires { IsTrue (are_keys wanted.now.keys) }
        ensures { result ≡ min limit (row_count wanted.now (version self.now)) }
    {
        self.facts.count_up_to(wanted, limit)
    }

    /// The version after one commit more, on a copy of the rows: a commit that fails halfway leaves nothing.
    /// A commit that isn't the next of the book is refused.
    fn next(&self, commit: &Commit<J>) -> Result<Version<J>, NoMemory>
        ensures { IfOk result (λ next. next ≡ self.now ++ commit.now ∷ []) }
    {
        let front = commit.front();
        if !is_next(&self.front, front) {
            return Err(NoMemory);
        }
        let mut facts = self.facts.copy(self.alloc)?;
        change_all(self.alloc, &mut facts, commit.changes())?;
        Ok(Version {
            alloc: self.alloc,
            facts,
            front: front.again(),
        })
    }
}

/// Whether the second front has one commit more than the first.
fn is_next<J: Naming>(front: &Front<J>, next: &Front<J>) -> bool
    ensures { IsTrue result → IsPrefix front.now next.now × (length next.now ≡ length front.now + 1) }
{
    let count = front.count();
    front.begins(next) && count < u64::MAX && next.count() == count + 1
}

impl<J: Naming> Absorb<Commit<J>> for Version<J> {
    type State = [[RowChange; 0]; 0];

    ghost state = { λ v. v };

    ghost applied = { λ commits commit. commits ++ commit ∷ [] };

    fn absorb_first(
        &mut self,
        operation: &Commit<J>,
        _other: &Version<J>,
    ) -> Result<(), AllocError> {
        match self.next(operation) {
            Ok(next) => {
                *self = next;
                Ok(())
            }
            Err(_) => Err(AllocError),
        }
    }
}
