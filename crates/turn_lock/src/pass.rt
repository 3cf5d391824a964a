ghost use Rattle.std.specs.Prelude.{◌≡◌};

use crate::board::Chair;
use crate::kept::Kept;
use std::marker::Model;

/// What one caller holds of a lock. Contracts see its numbers and the turns that it has seen.
#[derive(Drop)]
pub struct Pass<T: Kept> {
    pub(crate) seat: Chair<T>,
    pub(crate) number: u32,
}

impl<T: Kept> Model for Pass<T> {
    ghost use Rattle.turn_lock.specs.Callers.{Caller};
    ghost use Rattle.turn_lock.specs.Seats.{caller_of, IsPass};

    ghost Value = { Caller T.Turn T.Opening };

    ghost view = { λ p. caller_of p.seat.table_id p.number p.seat.me.0 };

    ghost invariant = { λ p. IsPass p.number p.seat.me };
}

impl<T: Kept> Pass<T> {
    /// The number of its caller.
    pub fn number(&self) -> u32
        ensures { result ≡ self.now.number }
    {
        self.number
    }
}
