//! What `facts`, `effects` and `graph` print of a state: its rows, effects and commands, with the names of a policy's items in place of their numbers.
#![tactic(auto)]

mod commands;
mod effects;
mod facts;
mod lines;
mod names;
mod naming;

pub use commands::graph_text;
pub use effects::effects_text;
pub use facts::facts_text;
pub use naming::named;
