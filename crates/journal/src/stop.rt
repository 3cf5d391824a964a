use base_bytes::NoMemory;
use outside::DiskStep;
use std::alloc::AllocError;

/// Why a piece of a disk gave no value.
#[derive(Clone, Copy)]
pub enum Stop {
    /// The bytes that come next are no spelling of one, or too few are left.
    Malformed,
    /// The disk failed at this step.
    Disk(DiskStep),
    NoMemory,
}

impl From<NoMemory> for Stop {
    ghost use Rattle.std.specs.Prelude.{◌≡◌};
    ghost use Rattle.journal.specs.declared.stop.Stop.TheVariants as stop;

    ghost from_gives = { λ _ error. error ≡ stop.NoMemory };

    fn from(_error: NoMemory) -> Stop {
        Stop::NoMemory
    }
}

impl From<AllocError> for Stop {
    ghost use Rattle.std.specs.Prelude.{◌≡◌};
    ghost use Rattle.journal.specs.declared.stop.Stop.TheVariants as stop;

    ghost from_gives = { λ _ error. error ≡ stop.NoMemory };

    fn from(_error: AllocError) -> Stop {
        Stop::NoMemory
    }
}
