use base_bytes::{Id, Text};

/// A fault of an evaluation, as texts name it.
#[derive(Clone, Copy, Debug, PartialEq, Eq)]
pub enum FaultWord {
    Unwrap,
    Exists,
    Missing,
    Differs,
    Turns,
    TooLong,
}

/// How a text names a message.
#[derive(Clone, Copy, Debug, PartialEq, Eq)]
pub enum MessageName {
    /// By its number, from 1.
    Number(u32),
    /// By the SHA-256 of its bytes.
    Digest(Id),
}

/// What was read.
#[derive(Clone, Copy, Debug, PartialEq, Eq)]
pub enum Input {
    Policy,
    Script,
    Calls,
    Snapshot,
    Messages,
}

/// Why a policy was refused.
#[derive(Clone, Copy, Debug, PartialEq, Eq)]
pub enum PolicyFault {
    NotUtf8,
    NoFrontMatter,
    WrongVersion,
    OpenBlock,
    BadToken,
    Syntax,
    IllTyped,
}

/// Who made a turn of a shared replica.
#[derive(Drop)]
pub enum Pass {
    Main,
    /// The caller of the replica's actions.
    Calls,
    /// The worker of the replica with this name.
    Sync(Text),
}
