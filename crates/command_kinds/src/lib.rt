//! The kind of a command, as its policy declares it.
#![tactic(auto)]

mod kind;

pub use kind::{Kind, command_kind};
