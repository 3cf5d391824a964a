ghost use Rattle.std.specs.Prelude.{◌≡◌, ◌+◌, ◌==◌, ◌<◌, ◌≤◌, ◌^◌, ◌++◌, ◌∷◌, [], length, IsTrue, MatchBool};
ghost use mathlib.Core.List.{IsPrefix};
ghost use Rattle.fact_readers.specs.working.Book.{head_of};

use crate::change::RowChange;
use logbook::{Gain, Offer, Plain, Play, Rule, Seen, Start, Word};
use std::marker::{Brand, Model, PhantomData};

/// A commit, as clauses see one. No value of it is made.
pub type Entry = [RowChange; 0];

/// The rule of the book.
pub struct BookRule;

impl Rule<Entry, u64> for BookRule {
    ghost use Rattle.std.specs.Prelude.{[]};
    ghost use base.Fml.{ftrue};
    ghost use Rattle.fact_readers.specs.working.Book.{IsKept};

    ghost holds = { λ cells log. IsKept cells log };

    ghost first = { [] };

    ghost hinted = { λ n log. Unit {0} };

    ghost shows = { λ log. [] };

    ghost keeps = { λ names log. ftrue };

    ghost moves = { λ ask before after answer. Unit {0} };
}

/// Callers trade nothing.
pub struct NoTrade;

impl Gain<Entry, u64> for NoTrade {
    ghost use base.Fml.{ftrue};

    ghost after = { λ names about answer. ftrue };
}

/// A step that adds a commit.
pub struct Add;

impl Play<Entry, u64> for Add {
    ghost use Rattle.fact_readers.specs.working.Book.{Adds};

    ghost then = { Adds };
}

/// What a step asks for: the commit.
impl Plain<Vec<RowChange>, Entry, u64> for Add {
    ghost use Rattle.std.specs.Prelude.{None};

    ghost ask = { λ commit. commit.items };

    ghost state = { λ commit. None };
}

/// Which book of commits it is: a name that has no bytes. A writer, its readers and what it tells have the same one.
pub trait Naming {
    ghost use Rattle.logbook.specs.Pages.{Book};

    ghost book: { Book };
}

impl Naming for Brand {
    ghost book = { record { number = 0; log_name = 0; cells_name = 0 } };
}

/// A book of commits with no commit yet, and without a name.
/// Contracts see it as which book it is.
#[derive(Drop)]
pub struct Opened {
    head: Word<Entry, u64, BookRule>,
    seen: Seen<Entry, u64, BookRule>,
}

impl Model for Opened {
    ghost use Rattle.std.specs.Prelude.{◌≡◌, []};
    ghost use Rattle.fact_readers.specs.working.Book.{head_of};
    ghost use Rattle.logbook.specs.Pages.{Book};

    ghost Value = { Book };

    ghost view = { λ o. o.seen.book };

    ghost invariant = { λ o. (o.seen.log ≡ []) × (o.head ≡ head_of o.seen.book) };
}

impl Opened {
    /// A new book. It takes no memory.
    pub fn new() -> Opened {
        let (seen, mut first, _second) = Seen::open(Start::alone(), 0, 0);
        Opened {
            head: Word::tracked(0, &mut first),
            seen,
        }
    }

    /// The book's word under a name, and the front that has seen nothing.
    pub(crate) fn named<J: Naming>(self) -> (Book<J>, Front<J>)
        requires { self ≡ J.book }
        ensures { result.1 ≡ [] }
    {
        let Opened { head, seen } = self;
        (
            Book {
                head,
                of: PhantomData,
            },
            Front {
                count: 0,
                seen,
                of: PhantomData,
            },
        )
    }
}

/// The book's word: how many commits it has.
#[derive(Drop)]
pub struct Book<J: Naming> {
    head: Word<Entry, u64, BookRule>,
    of: PhantomData<J>,
    ghost head_is: { head ≡ head_of J.book },
}

/// A front of the book's commits that was seen. It takes no memory, however long it is. Contracts see it as these commits.
#[derive(Drop)]
pub struct Front<J: Naming> {
    count: u64,
    seen: Seen<Entry, u64, BookRule>,
    of: PhantomData<J>,
}

impl<J: Naming> Model for Front<J> {
    ghost use Rattle.std.specs.Coded.{codes};
    ghost use Rattle.base_bytes.specs.contracts.value.Value as value;
    ghost use Rattle.std.specs.Prelude.{◌≡◌, List, length};
    ghost use Rattle.fact_readers.specs.declared.change.RowChange.{RowChange};

    ghost Value = { List (List RowChange) };

    ghost coded = { Prim.hlevel (codes, value.the_row.coded) };

    ghost view = { λ f. f.seen.log };

    ghost invariant = { λ f. (f.count ≡ length f.seen.log) × (f.seen.book ≡ J.book) };
}

impl<J: Naming> Front<J> {
    /// How many commits it has.
    pub fn count(&self) -> u64
        ensures { result ≡ length self.now }
    {
        self.count
    }

    /// The same front once more.
    pub fn again(&self) -> Front<J>
        ensures { result ≡ self.now }
    {
        Front {
            count: self.count,
            seen: self.seen.again(),
            of: PhantomData,
        }
    }

    /// Whether this one is a front of the other, as it is where it isn't longer.
    pub fn begins(&self, other: &Front<J>) -> bool
        ensures { MatchBool result (IsPrefix self.now other.now) (IsPrefix other.now self.now) }
    {
        let mut both = self.seen.again();
        both.learn(&other.seen);
        if self.count <= other.count {
            return true;
        }
        false
    }

    /// The longer of the two: both are fronts of it.
    pub fn longer(&self, other: &Front<J>) -> Front<J>
        ensures this { IsPrefix self.now result }
        ensures that { IsPrefix other.now result }
    {
        if self.begins(other) {
            other.again()
        } else {
            self.again()
        }
    }

    /// Adds a commit, and says whether it did. It doesn't where the book has more commits than were seen here.
    pub fn add(&mut self, book: &Book<J>, commit: &Vec<RowChange>) -> bool
        ensures { MatchBool result (self.new ≡ self.old ++ commit.now.items ∷ []) (self.new ≡ self.old) }
    {
        if self.count == u64::MAX {
            return false;
        }
        let mut next = self.seen.again();
        let mut offer: Offer<Entry, u64, BookRule, NoTrade> = next.plain::<
            NoTrade,
            Vec<RowChange>,
            Add,
        >(commit);
        let mut pen = next.no_pen();
        let count = self.count;
        let found = book
            .head
            .compare_exchange::<Add, NoTrade>(count, count + 1, &mut next, &mut offer, &mut pen);
        if found != count {
            return false;
        }
        self.seen = next;
        self.count = count + 1;
        true
    }
}
