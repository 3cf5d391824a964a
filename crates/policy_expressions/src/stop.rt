//! How an evaluation ends early, and the turns that it has left.

ghost use Rattle.policy_expressions.specs.Answers.{TakesTurn};

use base_bytes::NoMemory;
use policy_meaning::FaultKind;
use std::alloc::{AllocError, AllocFailed};

/// Why there is no value.
#[derive(Clone, Copy)]
pub enum Stop {
    /// A check failed.
    Check,
    Fault(FaultKind),
    /// The tree asks for what isn't there, as none of a well-typed policy does.
    Stuck,
    NoMemory,
}

/// What an evaluation gives, or why it gives nothing.
pub type Answer<T> = Result<T, Stop>;

impl From<NoMemory> for Stop {
    ghost use Rattle.std.specs.Prelude.{◌≡◌};
    ghost use Rattle.policy_expressions.specs.declared.stop.Stop.TheVariants as stop;

    ghost from_gives = { λ _ error. error ≡ stop.NoMemory };

    fn from(_error: NoMemory) -> Stop {
        Stop::NoMemory
    }
}

impl From<AllocError> for Stop {
    ghost use Rattle.std.specs.Prelude.{◌≡◌};
    ghost use Rattle.policy_expressions.specs.declared.stop.Stop.TheVariants as stop;

    ghost from_gives = { λ _ error. error ≡ stop.NoMemory };

    fn from(_error: AllocError) -> Stop {
        Stop::NoMemory
    }
}

impl<T: Drop> From<AllocFailed<T>> for Stop {
    ghost use Rattle.std.specs.Prelude.{◌≡◌};
    ghost use Rattle.policy_expressions.specs.declared.stop.Stop.TheVariants as stop;

    ghost from_gives = { λ _ error. error ≡ stop.NoMemory };

    fn from(_error: AllocFailed<T>) -> Stop {
        Stop::NoMemory
    }
}

/// Takes one turn. Where none is left it is a fault, and none is taken.
pub fn take_turn(turns: &mut u32) -> Answer<()>
    ensures { TakesTurn result turns.old turns.new }
{
    if *turns == 0 {
        return Err(Stop::Fault(FaultKind::Turns));
    }
    *turns -= 1;
    Ok(())
}
