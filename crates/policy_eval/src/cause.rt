//! Why an action ends before its end.

ghost use Rattle.std.specs.Prelude.{◌≡◌};
ghost use Rattle.policy_eval.specs.working.Acting.{caused};

use base_bytes::NoMemory;
use policy_expressions::{Answer, Stop};

/// Why an action stops.
pub(crate) enum Cause {
    /// As an evaluation does.
    Stop(Stop),
    /// The desk refused what was published.
    Refused,
}

impl From<Stop> for Cause {
    ghost use Rattle.std.specs.Prelude.{◌≡◌};
    ghost use Rattle.policy_eval.specs.declared.cause.Cause.TheVariants as cause;

    ghost from_gives = { λ stop error. error ≡ cause.Stop stop };

    fn from(stop: Stop) -> Cause {
        Cause::Stop(stop)
    }
}

impl From<NoMemory> for Cause {
    ghost use Rattle.std.specs.Prelude.{◌≡◌};
    ghost use Rattle.policy_eval.specs.declared.cause.Cause.TheVariants as cause;
    ghost use Rattle.policy_expressions.specs.declared.stop.Stop.TheVariants as stop;

    ghost from_gives = { λ _ error. error ≡ cause.Stop stop.NoMemory };

    fn from(_error: NoMemory) -> Cause {
        Cause::Stop(Stop::NoMemory)
    }
}

/// What an evaluation gave, as a part of an action.
pub(crate) fn caused<T>(found: Answer<T>) -> Result<T, Cause>
    ensures { result ≡ caused found }
{
    match found {
        Ok(x) => Ok(x),
        Err(stop) => Err(Cause::Stop(stop)),
    }
}
