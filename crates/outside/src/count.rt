// A counter of faults, which the objects of this crate share.
ghost use Rattle.std.specs.Prelude.{◌≡◌, ◌^◌, ◌<◌, ◌≤◌};
ghost use Rattle.outside.specs.Causes.{next_count};

/// A count that starts at 0 and stops at 2^64 - 1.
#[derive(Drop)]
pub struct Count {
    number: u64,
    ghost fits: { number < 2 ^ 64 },
}

impl Count {
    ghost use Rattle.outside.specs.Count.{count_of};

    pub fn new() -> Count
        ensures { count_of result ≡ 0 }
    {
        Count { number: 0 }
    }

    pub fn raise(&mut self)
        ensures raised { count_of self.new ≡ next_count (count_of self.old) }
        ensures later { count_of self.old ≤ count_of self.new }
    {
        self.number = self.number.saturating_add(1);
    }
}
