ghost use Rattle.std.specs.Prelude.{◌≡◌};
ghost use Rattle.fact_store.specs.declared.write_fault.WriteFault.TheVariants as fault;

use base_bytes::NoMemory;
use std::alloc::{AllocError, AllocFailed};

/// Why a write changed nothing.
#[derive(Clone, Copy, Debug, PartialEq, Eq)]
pub enum WriteFault {
    /// A row of this fact and these keys is there.
    Exists,
    /// No row of this fact and these keys is there.
    Missing,
    /// The row is there, and a named old value isn't its value.
    Differs,
    NoMemory,
}

impl From<NoMemory> for WriteFault {
    ghost from_gives = { λ _ why. why ≡ fault.NoMemory };

    fn from(_error: NoMemory) -> WriteFault {
        WriteFault::NoMemory
    }
}

impl From<AllocError> for WriteFault {
    ghost from_gives = { λ _ why. why ≡ fault.NoMemory };

    fn from(_error: AllocError) -> WriteFault {
        WriteFault::NoMemory
    }
}

impl<T: Drop> From<AllocFailed<T>> for WriteFault {
    ghost from_gives = { λ _ why. why ≡ fault.NoMemory };

    fn from(_error: AllocFailed<T>) -> WriteFault {
        WriteFault::NoMemory
    }
}
