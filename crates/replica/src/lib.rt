//! A replica of a graph under a policy: each call is one step.
#![tactic(auto)]

mod acting;
mod changing;
mod committing;
mod counts;
mod down;
mod front;
pub mod laws;
mod messages;
mod opening;
mod refusal;
mod replica;
mod restarting;
mod taking;

pub use counts::{Published, Refused, Taken};
pub use down::Down;
pub use journal::OpenFault;
pub use refusal::Refusal;
pub use replica::Replica;
