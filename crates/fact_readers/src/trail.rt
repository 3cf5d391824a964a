ghost use Rattle.std.specs.Prelude.{◌≡◌, ◌++◌, ◌∷◌, []};

use crate::book::Naming;
use crate::change::RowChange;
use crate::told::Told;
use logbook::{Opening, Rule, Seen, Start};
use std::marker::Model;

/// What a reader is told once, as clauses see it. No value of it is made.
pub type Lesson = ([[RowChange; 0]; 0], bool);

/// A rule that asks nothing.
pub struct NoRule;

impl Rule<Lesson, u64> for NoRule {
    ghost use Rattle.std.specs.Prelude.{[]};
    ghost use base.Fml.{ftrue};

    ghost holds = { λ cells log. Unit {0} };

    ghost first = { [] };

    ghost hinted = { λ n log. Unit {0} };

    ghost shows = { λ log. [] };

    ghost keeps = { λ names log. ftrue };

    ghost moves = { λ ask before after answer. Unit {0} };
}

/// What a reader was told since its last read. It has no bytes and takes no memory. Contracts see it as the list.
#[derive(Drop)]
pub struct Trail {
    seen: Seen<Lesson, u64, NoRule>,
}

impl Model for Trail {
    ghost use Rattle.std.specs.Coded.{codes};
    ghost use Rattle.base_bytes.specs.contracts.value.Value as value;
    ghost use Rattle.std.specs.Prelude.{List};
    ghost use Rattle.fact_readers.specs.Readers.{Lesson};

    ghost Value = { List Lesson };

    ghost coded = { Prim.hlevel (codes, value.the_row.coded) };

    ghost view = { λ t. t.seen.log };

    ghost invariant = { λ t. Unit {0} };
}

/// What a longer trail is made of.
#[derive(Drop)]
pub struct Longer<'a, J: Naming> {
    trail: &'a Trail,
    told: &'a Told<J>,
}

/// Begins a trail with nothing in it.
pub struct Empty;

/// Begins a trail that has one lesson more than another.
pub struct More;

impl Opening<(), Lesson> for Empty {
    ghost use Rattle.std.specs.Prelude.{[]};

    ghost log = { λ n x. [] };
}

impl<'a, J: Naming> Opening<Longer<'a, J>, Lesson> for More {
    ghost use Rattle.std.specs.Prelude.{[], ◌∷◌, ◌++◌};

    ghost log = { λ n x. x.trail.now ++ x.told.now ∷ [] };
}

impl Trail {
    pub fn new() -> Trail
        ensures { result ≡ [] }
    {
        let (seen, _pens) = Seen::open_row::<(), Empty>(&(), Start::alone(), 0);
        Trail { seen }
    }

    pub fn with<J: Naming>(&self, told: &Told<J>) -> Trail
        ensures { result ≡ self.now ++ told.now ∷ [] }
    {
        let about = Longer { trail: self, told };
        let (seen, _pens) = Seen::open_row::<Longer<'_, J>, More>(&about, Start::alone(), 0);
        Trail { seen }
    }
}
