//! Why a reader read nothing.

ghost use Rattle.std.specs.Prelude.{◌≡◌};
ghost use Rattle.policy_parse.specs.working.Reads.{or_none};

use base_bytes::NoMemory;
use std::alloc::{AllocError, AllocFailed};

#[derive(Clone, Copy)]
pub enum Unparsed {
    /// The tokens don't begin so.
    NoMatch,
    NoMemory,
}

impl From<NoMemory> for Unparsed {
    ghost use Rattle.std.specs.Prelude.{◌≡◌};
    ghost use Rattle.policy_parse.specs.declared.unparsed.Unparsed.TheVariants as unparsed;

    ghost from_gives = { λ _ error. error ≡ unparsed.NoMemory };

    fn from(_error: NoMemory) -> Unparsed {
        Unparsed::NoMemory
    }
}

impl From<AllocError> for Unparsed {
    ghost use Rattle.std.specs.Prelude.{◌≡◌};
    ghost use Rattle.policy_parse.specs.declared.unparsed.Unparsed.TheVariants as unparsed;

    ghost from_gives = { λ _ error. error ≡ unparsed.NoMemory };

    fn from(_error: AllocError) -> Unparsed {
        Unparsed::NoMemory
    }
}

impl<T: Drop> From<AllocFailed<T>> for Unparsed {
    ghost use Rattle.std.specs.Prelude.{◌≡◌};
    ghost use Rattle.policy_parse.specs.declared.unparsed.Unparsed.TheVariants as unparsed;

    ghost from_gives = { λ _ error. error ≡ unparsed.NoMemory };

    fn from(_error: AllocFailed<T>) -> Unparsed {
        Unparsed::NoMemory
    }
}

/// None where the tokens don't begin so, for whoever goes on then.
pub fn or_none<T: Drop>(read: Result<T, Unparsed>) -> Result<Option<T>, NoMemory>
    ensures { result ≡ or_none read }
{
    match read {
        Ok(value) => Ok(Some(value)),
        Err(Unparsed::NoMatch) => Ok(None),
        Err(Unparsed::NoMemory) => Err(NoMemory),
    }
}
