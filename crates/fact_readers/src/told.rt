ghost use Rattle.std.specs.Prelude.{◌≡◌};

use crate::book::{Front, Naming};
use std::marker::Model;

/// The commits that were published when the writer told them, and whether it told them as the last.
/// It takes no memory. Contracts see it as the list and that truth value.
#[derive(Drop)]
pub struct Told<J: Naming> {
    front: Front<J>,
    last: bool,
}

impl<J: Naming> Model for Told<J> {
    ghost use Rattle.std.specs.Coded.{codes};
    ghost use Rattle.base_bytes.specs.contracts.value.Value as value;
    ghost use Rattle.std.specs.Prelude.{Bool, List};
    ghost use Rattle.fact_readers.specs.declared.change.RowChange.{RowChange};

    ghost Value = { List (List RowChange) × Bool };

    ghost coded = { Prim.hlevel (codes, value.the_row.coded) };

    ghost view = { λ t. (t.front, t.last) };

    ghost invariant = { λ t. Unit {0} };
}

impl<J: Naming> Told<J> {
    pub(crate) fn new(front: Front<J>, last: bool) -> Told<J>
        ensures { result ≡ (front, last) }
    {
        Told { front, last }
    }

    pub(crate) fn front(&self) -> &Front<J>
        ensures { result.now ≡ self.now.0 }
    {
        &self.front
    }

    pub(crate) fn is_last(&self) -> bool
        ensures { result ≡ self.now.1 }
    {
        self.last
    }
}
