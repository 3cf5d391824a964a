ghost use Rattle.std.specs.Prelude.{◌≡◌, ◌+◌, ◌-◌, ◌^◌, ◌<◌, ◌++◌, [], ◌∷◌, true, MatchResult};
ghost use Rattle.samples.specs.Tallies.{counted, is_legal, plus, turn};

use crate::turn::Turn;
use std::alloc::Global;
use turn_lock::{Kept, NoMemory};

/// A counter that keeps its turns.
#[derive(Drop)]
pub struct Tally {
    pub start: u64,
    pub count: u64,
    pub turns: Vec<Turn>,
    pub idle: u64,
    ghost counted: { count ≡ counted start turns.items },
    ghost legal: { is_legal start turns.items ≡ true },
}

impl Kept for Tally {
    ghost use Rattle.std.specs.Prelude.{◌≡◌, true};
    ghost use Rattle.samples.specs.Tallies.{is_legal};

    type Turn = Turn;

    type Opening = u64;

    ghost turns = { λ s. s.turns.items };

    ghost idle = { λ s. s.idle };

    ghost opening = { λ s. s.start };

    ghost caller = { λ t. t.caller };

    ghost before = { λ t. t.idle };

    ghost legal = { λ start turns. is_legal start turns ≡ true };

    fn is_legal(&self) {}
}

impl Tally {
    /// A counter that has no turn yet.
    pub fn new(alloc: Global, start: u64) -> Tally
        ensures { (result.turns.items ≡ []) × (result.idle ≡ 0) × (result.start ≡ start) }
    {
        Tally {
            start,
            count: start,
            turns: Vec::new(alloc),
            idle: 0,
        }
    }

    /// The counter as it is.
    pub fn count(&self) -> u64
        ensures { result ≡ counted self.now.start self.now.turns.items }
    {
        self.count
    }

    /// The turns, the oldest first.
    pub fn turns(&self) -> &[Turn]
        ensures { result.now ≡ self.now.turns.items }
    {
        self.turns.as_slice()
    }

    /// Adds an amount as one turn, and answers the counter behind it. Where there is no memory for the turn, it is an idle turn.
    #[tactic(auto, using(crate::proofs::Pushes::counted_push, crate::proofs::Pushes::legal_push))]
    pub fn add(&mut self, caller: u32, amount: u64) -> Result<u64, NoMemory>
        requires { self.old.idle < 2 ^ 64 - 1 }
        ensures turn { MatchResult result (λ reply. (self.new.turns.items ≡ self.old.turns.items ++ turn caller self.old.idle amount reply ∷ []) × (self.new.idle ≡ 0)) (λ _. (self.new.turns.items ≡ self.old.turns.items) × (self.new.idle ≡ self.old.idle + 1)) }
        ensures start { self.new.start ≡ self.old.start }
    {
        let reply = self.count.wrapping_add(amount);
        let turn = Turn {
            caller,
            idle: self.idle,
            amount,
            reply,
        };
        match self.turns.push(turn) {
            Ok(()) => {
                self.count = reply;
                self.idle = 0;
                Ok(reply)
            }
            Err(_failed) => {
                self.idle += 1;
                Err(NoMemory)
            }
        }
    }

    /// Does nothing, as an idle turn.
    pub fn pause(&mut self)
        requires { self.old.idle < 2 ^ 64 - 1 }
        ensures idle { (self.new.turns.items ≡ self.old.turns.items) × (self.new.idle ≡ self.old.idle + 1) }
        ensures start { self.new.start ≡ self.old.start }
    {
        self.idle += 1;
    }
}
