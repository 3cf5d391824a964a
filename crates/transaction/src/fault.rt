use base_bytes::{Id, NoMemory, Text};
use policy_meaning::{FaultKind, Why};

/// Why an action publishes nothing. Nothing of the graph, the facts or the entries has changed then.
#[derive(Drop)]
pub enum ActFault {
    /// No command is held, and the action isn't the first of its graph.
    NoGraph,
    /// The policy declares no action of this name.
    UnknownAction,
    /// They aren't as many as the parameters, or one of them is no value of its parameter's type.
    Arguments,
    /// A check of the body failed.
    Check,
    /// A fault of the body, or a published command with too long a payload.
    Fault(FaultKind),
    /// The policy doesn't accept a published command of this name: its kind stands in the wrong place, a check failed, or there was a fault.
    CommandPolicy(Text, Why),
    /// The envelope made no tag.
    SealFault,
    /// A command with the id of a new one is held, or was made before in this call.
    Collision(Id),
    /// The graph holds no more.
    Full,
    NoMemory,
}

impl From<NoMemory> for ActFault {
    ghost use Rattle.std.specs.Prelude.{◌≡◌};
    ghost use Rattle.transaction.specs.declared.fault.ActFault.TheVariants as fault;

    ghost from_gives = { λ _ error. error ≡ fault.NoMemory };

    fn from(_error: NoMemory) -> ActFault {
        ActFault::NoMemory
    }
}
