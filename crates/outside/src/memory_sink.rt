// A sink in memory, some of whose writes fail as planned.
ghost use Rattle.std.specs.Prelude.{◌≡◌, ◌<◌, [], length, Some, IfOk, IsErr};
ghost use Rattle.outside.specs.Causes.{HasCause};
ghost use Rattle.outside.specs.MemorySink.{sink_bytes, sink_plan};
ghost use Rattle.outside.specs.Plan.{IsDue, plan_at_start, plan_after};
ghost use Rattle.outside.specs.Sink.{TakesSome, written_after};

use crate::schedule::Schedule;
use crate::{Failed, Sink};
use base_bytes::Bytes;
use std::alloc::Global;

/// A sink that keeps what is written to it. A write fails as planned, and where its own growth is refused.
#[derive(Drop)]
pub struct MemorySink {
    alloc: Global,
    bytes: Bytes,
    schedule: Schedule,
}

impl MemorySink {
    /// An empty sink of which the writes with these numbers, from 1, are to fail. Takes no memory.
    pub fn new(alloc: Global, failing: Vec<u64>) -> MemorySink
        ensures bytes { sink_bytes result ≡ [] }
        ensures plan { sink_plan result ≡ plan_at_start failing.items }
    {
        MemorySink {
            alloc,
            bytes: Bytes::new(alloc),
            schedule: Schedule::new(failing),
        }
    }

    /// What was written so far.
    pub fn bytes(&self) -> &[u8]
        ensures { result.now ≡ sink_bytes self.now }
    {
        self.bytes.as_slice()
    }
}

impl Sink for MemorySink {
    ghost written = { λ sink. Some (sink_bytes sink) };

    ghost faults = { λ sink. (sink_plan sink).faults };

    ghost faults_fit = { λ sink. sink.schedule.faults.fits };

    fn write(&mut self, piece: &[u8]) -> Result<usize, Failed>
        requires { 0 < length piece.now }
        ensures count { TakesSome result piece.now }
        ensures written { Some (sink_bytes self.new) ≡ written_after result piece.now (Some (sink_bytes self.old)) }
        ensures cause { HasCause (sink_plan self.old).faults (sink_plan self.new).faults result }

        // It takes the whole piece, and fails at the planned calls; beside these it fails only where its own growth is refused.
        ensures whole { IfOk result (λ n. n ≡ length piece.now) }
        ensures due { IsDue (sink_plan self.old) → IsErr result }
        ensures plan { sink_plan self.new ≡ plan_after result (sink_plan self.old) }
    {
        if self.schedule.begin() {
            self.schedule.fail();
            return Err(Failed);
        }
        match self.bytes.extend(self.alloc, piece) {
            Ok(()) => Ok(piece.len()),
            Err(_) => {
                self.schedule.fail();
                Err(Failed)
            }
        }
    }
}
