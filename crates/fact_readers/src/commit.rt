ghost use Rattle.std.specs.Prelude.{◌≡◌, IsTrue, Some};
ghost use Rattle.std.specs.List.{list_all};
ghost use Rattle.fact_readers.specs.Changes.{is_keyed};
ghost use Rattle.fact_readers.specs.working.Book.{last_of};

use crate::book::{Front, Naming};
use crate::change::RowChange;
use std::marker::Model;

/// A commit that is taken, and not yet in the book. Contracts see it as its changes.
#[derive(Drop)]
pub struct Queued {
    pub changes: Vec<RowChange>,
}

impl Model for Queued {
    ghost use Rattle.std.specs.Coded.{codes};
    ghost use Rattle.base_bytes.specs.contracts.value.Value as value;
    ghost use Rattle.std.specs.Prelude.{List, IsTrue};
    ghost use Rattle.std.specs.List.{list_all};
    ghost use Rattle.fact_readers.specs.declared.change.RowChange.{RowChange};
    ghost use Rattle.fact_readers.specs.Changes.{is_keyed};

    ghost Value = { List RowChange };

    ghost coded = { Prim.hlevel (codes, value.the_row.coded) };

    ghost view = { λ q. q.changes.items };

    ghost invariant = { λ q. IsTrue (list_all is_keyed q.changes.items) };
}

/// A commit of the book, with the book's commits up to it. It is what the two copies absorb.
/// Contracts see it as its changes.
#[derive(Drop)]
pub struct Commit<J: Naming> {
    changes: Vec<RowChange>,
    front: Front<J>,
}

impl<J: Naming> Model for Commit<J> {
    ghost use Rattle.std.specs.Coded.{codes};
    ghost use Rattle.base_bytes.specs.contracts.value.Value as value;
    ghost use Rattle.std.specs.Prelude.{◌≡◌, List, Some, IsTrue};
    ghost use Rattle.fact_readers.specs.working.Book.{last_of};
    ghost use Rattle.std.specs.List.{list_all};
    ghost use Rattle.fact_readers.specs.declared.change.RowChange.{RowChange};
    ghost use Rattle.fact_readers.specs.Changes.{is_keyed};

    ghost Value = { List RowChange };

    ghost coded = { Prim.hlevel (codes, value.the_row.coded) };

    ghost view = { λ c. c.changes.items };

    ghost invariant = { λ c. IsTrue (list_all is_keyed c.changes.items) × (last_of c.front ≡ Some c.changes.items) };
}

impl<J: Naming> Commit<J> {
    /// The commit that the book has last.
    pub fn laid(queued: Queued, front: Front<J>) -> Commit<J>
        requires { last_of front ≡ Some queued }
        ensures { result ≡ queued }
    {
        let Queued { changes } = queued;
        Commit { changes, front }
    }

    pub fn changes(&self) -> &[RowChange]
        ensures is { result.now ≡ self.now }
        ensures keyed { IsTrue (list_all is_keyed self.now) }
    {
        self.changes.as_slice()
    }

    pub fn front(&self) -> &Front<J>
        ensures { last_of result.now ≡ Some self.now }
    {
        &self.front
    }
}
