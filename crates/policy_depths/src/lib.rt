//! How many calls of a policy follow one another, and how deep its structs nest.
#![tactic(auto)]

mod chains;
mod expressions;
mod nestings;
mod rounds;
mod statements;

pub use chains::allowed_chains;
pub use nestings::allowed_nestings;
