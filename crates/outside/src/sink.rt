ghost use Rattle.std.specs.Prelude.{◌≡◌, ℕ, ◌^◌, ◌<◌, List, Option, length};
ghost use Rattle.outside.specs.Causes.{HasCause};
ghost use Rattle.outside.specs.Sink.{TakesSome, written_after};

use crate::Failed;

/// Where output goes.
pub trait Sink: Drop {
    /// What was written so far, where it is told.
    ghost written: { Self → Option (List ℕ) };

    /// How often a write failed, up to 2^64 - 1.
    ghost faults: { Self → ℕ };

    /// Takes some bytes from the front of the piece, at least one, and answers how many. Failed where it takes none.
    fn write(&mut self, piece: &[u8]) -> Result<usize, Failed>
        requires { 0 < length piece.now }
        ensures count { TakesSome result piece.now }
        ensures written { written self.new ≡ written_after result piece.now (written self.old) }
        ensures cause { HasCause (faults self.old) (faults self.new) result };

    /// The count is a number of 64 bits.
    ghost faults_fit: { (sink : Self) → faults sink < 2 ^ 64 };
}
