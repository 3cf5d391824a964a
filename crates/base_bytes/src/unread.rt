ghost use Rattle.std.specs.Prelude.{◌≡◌};
ghost use Rattle.base_bytes.specs.Reading.{or_none};

use crate::NoMemory;
use std::alloc::{AllocError, AllocFailed};

/// Why a reader could not read a value.
#[derive(Clone, Copy, Debug, PartialEq, Eq)]
pub enum Unread {
    /// The bytes that come next are no spelling of one.
    Malformed,
    NoMemory,
}

impl From<NoMemory> for Unread {
    ghost use Rattle.std.specs.Prelude.{◌≡◌};
    ghost use Rattle.base_bytes.specs.declared.unread.Unread.TheVariants as unread;

    ghost from_gives = { λ _ error. error ≡ unread.NoMemory };

    fn from(_error: NoMemory) -> Unread {
        Unread::NoMemory
    }
}

impl From<AllocError> for Unread {
    ghost use Rattle.std.specs.Prelude.{◌≡◌};
    ghost use Rattle.base_bytes.specs.declared.unread.Unread.TheVariants as unread;

    ghost from_gives = { λ _ error. error ≡ unread.NoMemory };

    fn from(_error: AllocError) -> Unread {
        Unread::NoMemory
    }
}

impl<T: Drop> From<AllocFailed<T>> for Unread {
    ghost use Rattle.std.specs.Prelude.{◌≡◌};
    ghost use Rattle.base_bytes.specs.declared.unread.Unread.TheVariants as unread;

    ghost from_gives = { λ _ error. error ≡ unread.NoMemory };

    fn from(_error: AllocFailed<T>) -> Unread {
        Unread::NoMemory
    }
}

/// What a call that reads to the end of its bytes answers: None where they are no spelling of a value.
pub fn or_none<T: Drop>(read: Result<T, Unread>) -> Result<Option<T>, NoMemory>
    ensures { result ≡ or_none read }
{
    match read {
        Ok(value) => Ok(Some(value)),
        Err(Unread::Malformed) => Ok(None),
        Err(Unread::NoMemory) => Err(NoMemory),
    }
}
