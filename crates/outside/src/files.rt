ghost use Rattle.std.specs.Prelude.{◌≡◌, ℕ, ◌^◌, ◌<◌, List, Option, IfOk};
ghost use Rattle.outside.specs.Causes.{ReadHasCause};
ghost use Rattle.outside.specs.Files.{Holding, ReadsFile, FailsMissing, last_after};

use crate::ReadFail;
use base_bytes::{Bytes, Text};
use std::alloc::Global;

/// Files that are read by name.
pub trait Files: Drop {
    /// The files by name, where they are told.
    ghost holds: { Self → Option Holding };

    /// The name of the latest read that failed.
    ghost last: { Self → Option (List ℕ) };

    /// How often a read failed, up to 2^64 - 1.
    ghost faults: { Self → ℕ };

    /// The first `limit + 1` bytes of the named file, or the whole of a shorter one. Never Ok where the name isn't there.
    fn read(&mut self, alloc: Global, name: Text, limit: u64) -> Result<Bytes, ReadFail>
        ensures bytes { IfOk result (ReadsFile (holds self.old) name limit) }
        ensures missing { FailsMissing (holds self.old) name result }
        ensures holds { holds self.new ≡ holds self.old }
        ensures last { last self.new ≡ last_after result name (last self.old) }
        ensures cause { ReadHasCause (faults self.old) (faults self.new) result };

    /// The count is a number of 64 bits.
    ghost faults_fit: { (files : Self) → faults files < 2 ^ 64 };
}
