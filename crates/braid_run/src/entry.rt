ghost use Rattle.std.specs.Prelude.{◌≡◌, IfOk};

use base_bytes::{Id, NoMemory};
use policy_meaning::Effects;
use std::alloc::Global;

/// What a command came to when the braid was run.
#[derive(Clone, Copy, Debug, PartialEq, Eq)]
pub enum Outcome {
    /// Its policy passed.
    Pass,
    /// A check of its policy failed, and its recall passed.
    Recalled,
    /// It changed nothing.
    Void,
}

/// A command of the braid that was run: its id, what it came to, and its effects in order. A void one has none.
#[derive(Drop)]
pub struct Entry {
    pub id: Id,
    pub outcome: Outcome,
    pub effects: Effects,
}

impl Entry {
    pub fn copy(&self, alloc: Global) -> Result<Entry, NoMemory>
        ensures { IfOk result (λ other. other ≡ self.now) }
    {
        Ok(Entry {
            id: self.id,
            outcome: self.outcome,
            effects: self.effects.copy(alloc)?,
        })
    }
}
