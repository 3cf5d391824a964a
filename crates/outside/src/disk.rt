ghost use Rattle.std.specs.Prelude.{◌≡◌, ℕ, ◌^◌, ◌<◌, ◌≤◌, Bool, Option, IsTrue, IfOk, OnOk, OnErr, length, slice_index};
ghost use Rattle.outside.specs.declared.faults.DiskStep.{DiskStep};
ghost use Rattle.outside.specs.Causes.{HasCause};
ghost use Rattle.outside.specs.Disk.{Content, IsImage, ReadsAt, after_write, after_sync, FailsWrite, step_after};

use crate::{DiskStep, Failed};

/// One file of bytes that is read and written in place.
pub trait Disk: Drop {
    /// Whether disks of this type tell their content.
    ghost tells: { Bool };

    /// The content, where it is told.
    ghost content: { Self → Content };

    /// Whether the disk keeps the rules of writes and syncs.
    ghost honest: { Self → Bool };

    /// How often a call failed, up to 2^64 - 1.
    ghost faults: { Self → ℕ };

    /// What the latest failed call was doing.
    ghost last_step: { Self → Option DiskStep };

    /// The number of bytes.
    fn len(&mut self) -> Result<u64, Failed>
        ensures len { IsTrue tells → IfOk result (λ n. n ≡ length (content self.old).reads) }
        ensures reads { IsTrue tells → (content self.new).reads ≡ (content self.old).reads }
        ensures content { IsTrue tells → IsTrue (honest self.old) → content self.new ≡ content self.old }
        ensures honest { honest self.new ≡ honest self.old }
        ensures step { last_step self.new ≡ step_after result DiskStep.Read (last_step self.old) }
        ensures cause { HasCause (faults self.old) (faults self.new) result };

    /// Fills the slice from this place on, and answers how many bytes it filled: all, or what is left of the disk.
    fn read_at(&mut self, at: u64, into: &mut [u8]) -> Result<usize, Failed>
        ensures bytes { IsTrue tells → IfOk result (λ n. ReadsAt (content self.old).reads at n into.old into.new) }
        ensures reads { IsTrue tells → (content self.new).reads ≡ (content self.old).reads }
        ensures content { IsTrue tells → IsTrue (honest self.old) → content self.new ≡ content self.old }
        ensures honest { honest self.new ≡ honest self.old }
        ensures step { last_step self.new ≡ step_after result DiskStep.Read (last_step self.old) }
        ensures cause { HasCause (faults self.old) (faults self.new) result };

    /// Writes the piece over what is there, and past the end. After a failure nothing was written, or its range counts as
    /// written and may hold anything.
    fn write_at(&mut self, at: u64, piece: &[u8]) -> Result<(), Failed>
        requires { IsTrue tells → IsTrue (honest self.old) → at ≤ length (content self.old).reads }
        ensures written { IsTrue tells → IsTrue (honest self.old) → OnOk result (content self.new ≡ after_write at piece.now (content self.old)) }
        ensures torn { IsTrue tells → IsTrue (honest self.old) → OnErr result (FailsWrite at (length piece.now) (content self.old) (content self.new)) }
        ensures honest { honest self.new ≡ honest self.old }
        ensures step { last_step self.new ≡ step_after result DiskStep.Write (last_step self.old) }
        ensures cause { HasCause (faults self.old) (faults self.new) result };

    /// Makes what was written last: a crash then leaves what a read gives.
    fn sync(&mut self) -> Result<(), Failed>
        ensures reads { IsTrue tells → (content self.new).reads ≡ (content self.old).reads }
        ensures synced { IsTrue tells → IsTrue (honest self.old) → OnOk result (content self.new ≡ after_sync (content self.old)) }
        ensures same { IsTrue tells → IsTrue (honest self.old) → OnErr result (content self.new ≡ content self.old) }
        ensures honest { honest self.new ≡ honest self.old }
        ensures step { last_step self.new ≡ step_after result DiskStep.Sync (last_step self.old) }
        ensures cause { HasCause (faults self.old) (faults self.new) result };

    /// The count is a number of 64 bits.
    ghost faults_fit: { (disk : Self) → faults disk < 2 ^ 64 };

    /// What is told are bytes.
    ghost reads_bytes: { (disk : Self) → IsTrue tells → (place : ℕ) → slice_index (content disk).reads place < 256 };

    /// An honest disk as it reads is one of its images.
    ghost reads_image: { (disk : Self) → IsTrue tells → IsTrue (honest disk) → IsImage (content disk).now (content disk).reads };
}
