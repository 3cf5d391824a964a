// Counts the calls of an object in memory, and says which of them are to fail.
ghost use Rattle.std.specs.Prelude.{◌≡◌, ◌↔◌, IsTrue};
ghost use Rattle.outside.specs.Plan.{IsDue, plan_at_start};
ghost use Rattle.outside.specs.Schedule.{plan_of, CountsCall, CountsFault};

use crate::count::Count;

/// The numbers, from 1, of the calls that are to fail, and how many calls there were and failed.
#[derive(Drop)]
pub struct Schedule {
    failing: Vec<u64>,
    calls: u64,
    faults: Count,
}

impl Schedule {
    /// No call yet. Takes no memory.
    pub fn new(failing: Vec<u64>) -> Schedule
        ensures { plan_of result ≡ plan_at_start failing.items }
    {
        Schedule {
            failing,
            calls: 0,
            faults: Count::new(),
        }
    }

    /// Counts a call, and answers whether it is to fail.
    pub fn begin(&mut self) -> bool
        ensures due { IsTrue result ↔ IsDue (plan_of self.old) }
        ensures counted { CountsCall (plan_of self.old) (plan_of self.new) }
    {
        self.calls = self.calls.saturating_add(1);
        self.failing.contains(&self.calls)
    }

    /// Counts a fault.
    pub fn fail(&mut self)
        ensures { CountsFault (plan_of self.old) (plan_of self.new) }
    {
        self.faults.raise();
    }
}
