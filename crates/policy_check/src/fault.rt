use base_bytes::NoMemory;

/// Why a policy is refused.
#[derive(Clone, Copy, PartialEq, Eq)]
pub enum TypeFault {
    /// The first item that isn't well typed begins in this line, counted from 1.
    IllTyped { item_line: u32 },
    NoMemory,
}

impl From<NoMemory> for TypeFault {
    ghost use Rattle.std.specs.Prelude.{◌≡◌};
    ghost use Rattle.policy_check.specs.declared.fault.TypeFault.TheVariants as fault;

    ghost from_gives = { λ _ error. error ≡ fault.NoMemory };

    fn from(_error: NoMemory) -> TypeFault {
        TypeFault::NoMemory
    }
}
