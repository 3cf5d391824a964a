ghost use Rattle.std.specs.Prelude.{◌≡◌, ◌+◌, ◌<◌, ◌^◌, OnOk, length};
ghost use Rattle.world.specs.Sessions.{no_sum, with_taken};

use base_bytes::NoMemory;
use replica::{Refused, Taken};
use std::alloc::Global;
use std::marker::Model;

/// What the takes of a session came to: how many answers were taken, how many commands were added and how many were held already, and those refused.
#[derive(Drop)]
pub struct Sum {
    pub answers: usize,
    pub added: usize,
    pub repeats: usize,
    pub refused: Refused,
}

impl Model for Sum {
    ghost use Rattle.world.specs.Sessions.{Sum};

    ghost Value = { Sum };

    ghost view = { λ s. record { answers = s.answers; added = s.added; repeats = s.repeats; refused = s.refused } };
}

impl Sum {
    /// Nothing is taken yet. Takes no memory.
    pub fn new(alloc: Global) -> Sum
        ensures { result ≡ no_sum }
    {
        Sum {
            answers: 0,
            added: 0,
            repeats: 0,
            refused: Refused::new(alloc),
        }
    }

    /// One take more.
    pub fn add(&mut self, taken: Taken) -> Result<(), NoMemory>
        requires answers { self.old.answers + 1 < 2 ^ 64 }
        requires added { self.old.added + taken.added < 2 ^ 64 }
        requires repeats { self.old.repeats + taken.repeats < 2 ^ 64 }
        ensures { OnOk result (self.new ≡ with_taken self.old taken) }
    {
        let Taken {
            added,
            repeats,
            refused,
            more: _,
            cut: _,
            entries: _,
        } = taken;
        self.refused.append(refused)?;
        self.answers += 1;
        self.added += added;
        self.repeats += repeats;
        Ok(())
    }
}
