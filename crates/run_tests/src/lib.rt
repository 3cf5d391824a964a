//! Tests of runs and states: what no contract says, against orders worked out by hand.
#![tactic(auto)]

mod adding;
mod no_commands;
#[cfg(test)]
mod rows;
#[cfg(test)]
mod states;

pub use adding::{Tried, add};
pub use no_commands::NoCommands;
