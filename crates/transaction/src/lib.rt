//! Actions: what one publishes is prepared whole or refused, and then applied.
#![tactic(auto)]

mod acting;
mod applying;
mod declared;
mod desk;
mod draft;
mod fault;
mod items;
mod new_commands;
mod opening;
mod preparing;
mod publishing;
mod sealing;
mod starting;

pub use acting::Prepared;
pub use applying::apply;
pub use fault::ActFault;
pub use preparing::prepare;
