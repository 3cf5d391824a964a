//! Whether a policy is well typed, and the line in which its first item begins that isn't.
#![tactic(auto)]

mod checking;
mod commands;
mod fault;
mod functions;
mod judge;

pub use checking::check;
pub use fault::TypeFault;
