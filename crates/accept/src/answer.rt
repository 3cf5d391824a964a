use base_bytes::{Bytes, Id};
use policy_meaning::Why;

/// Why a command isn't taken.
#[derive(Drop)]
pub enum Reason {
    /// Another command with this id is held, of these bytes.
    Collision { id: Id, held: Bytes },
    /// An init that isn't the graph's own, or that has another policy's digest.
    OtherInit,
    /// This parent isn't held; of two, the left one comes first.
    MissingParent(Id),
    /// It states this cut, and its parents give it the real one.
    WrongCut { stated: u32, real: u32 },
    /// The tag isn't good for the author and the body.
    BadEnvelope,
    /// The policy doesn't accept it.
    Policy(Why),
    /// It is a finalize, and this held finalize isn't its ancestor: the first such in stored order.
    ParallelFinalize(Id),
    /// As many commands are held as a graph can hold.
    Full,
}

/// What becomes of a command that is to be added.
#[derive(Drop)]
pub enum Admit {
    /// It may be added.
    Added,
    /// It is held already, with the same bytes.
    Repeat,
    Refused(Reason),
}
