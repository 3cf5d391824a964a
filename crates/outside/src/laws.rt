ghost use Rattle.std.specs.Prelude.{◌⊎◌, ℕ, ◌≤◌, List};
ghost use Rattle.outside.specs.Crashes.{IsLater, MightHaveLeft, clock};
ghost use Rattle.outside.specs.Disk.{Content};

/// What a crash since an earlier time might have left of a disk was told so before a run of calls, or is what a crash since the
/// start of the run might have left.
pub fn earlier_crashes_are_told()
    ensures { (old new : Content) → IsLater old new → (time : ℕ) (image : List ℕ) → time ≤ clock old → MightHaveLeft new time image →
        MightHaveLeft old time image ⊎ MightHaveLeft new (clock old) image }
{}
