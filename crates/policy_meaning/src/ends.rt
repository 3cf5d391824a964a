//! How a block, an action and a publish come to an end.

use crate::Effects;

/// What went wrong in a block. It ends the block, and all its writes and effects are dropped.
#[derive(Clone, Copy, Debug, PartialEq, Eq)]
pub enum FaultKind {
    /// `unwrap` of None.
    Unwrap,
    /// `create` of a row that is there.
    Exists,
    /// `update` or `delete` of a row that isn't there.
    Missing,
    /// `update` of a row whose value isn't the named old one.
    Differs,
    /// No turn was left for a call or for the next row of a `map`.
    Turns,
    /// A published command has too long a payload.
    TooLong,
}

/// Why a policy doesn't accept a command.
#[derive(Clone, Copy, Debug, PartialEq, Eq)]
pub enum Why {
    /// The policy declares no command of this name.
    UnknownCommand,
    /// The declared command is of another kind or priority.
    WrongKind,
    /// The payload is no value of the declared fields.
    Payload,
    /// A check failed.
    Check,
    Fault(FaultKind),
}

/// How a policy block or a recall block ended.
#[derive(Drop)]
pub enum Verdict {
    /// It passed, and these are its effects in order.
    Pass(Effects),
    Check,
    Fault(FaultKind),
}

/// How the body of an action ended.
#[derive(Clone, Copy, Debug, PartialEq, Eq)]
pub enum ActionEnd {
    Done,
    Check,
    Fault(FaultKind),
    /// The desk refused a command.
    Stopped,
}

/// What a desk answers to a published command.
#[derive(Clone, Copy, Debug, PartialEq, Eq)]
pub enum Posted {
    Taken,
    /// The payload is too long.
    TooLong,
    Refused,
}
