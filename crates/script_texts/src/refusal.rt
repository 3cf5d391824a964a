use crate::words::FaultWord;
use base_bytes::{Id, Text};

/// Why a command was refused.
#[derive(Clone, Copy, Debug, PartialEq, Eq)]
pub enum CommandRefusal {
    Collision,
    OtherInit,
    /// The parent that isn't held.
    MissingParent(Id),
    WrongCut,
    BadEnvelope,
    UnknownCommand,
    WrongKind,
    Payload,
    Check,
    Fault(FaultWord),
    /// A finalize command that isn't an ancestor.
    ParallelFinalize(Id),
    Full,
}

/// Why a line was refused.
#[derive(Drop)]
pub enum LineRefusal {
    NoGraph,
    HasGraph,
    UnknownAction,
    Arguments,
    Check,
    Fault(FaultWord),
    /// The name of the command that the action published, and why that was refused.
    Command(Text, CommandRefusal),
    /// The id of the command that is held with other bytes.
    Collision(Id),
    Full,
    Malformed,
    /// The other graph.
    OtherGraph(Id),
}
