//! Commands: their form as bytes, the part that is sealed, their ids; and what a graph of commands is.
#![tactic(auto)]

mod bodies;
mod command;
mod commands;
mod cuts;
mod digest;
mod graph;
mod kinds;
mod laws;
mod parents;
mod pieces;
mod places;
mod reading;
mod writing;

pub use bodies::{basic_body, body_of, finalize_body, init_body, to_bytes};
pub use command::Command;
pub use commands::Commands;
pub use cuts::cut_of;
pub use digest::id_of;
pub use graph::{Graph, MAX_COMMANDS};
pub use laws::{ancestors_are_older, commands_are_unambiguous, limits_are_as_defined};
pub use parents::Parents;
pub use places::Places;
pub use reading::{from_bytes, read_counted};
