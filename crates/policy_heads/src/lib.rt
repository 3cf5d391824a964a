//! What the rest of a policy knows of its items, found by their names, and the types in which that is said.
#![tactic(auto)]

mod fields;
mod head;
mod heads;
mod names;
mod types;

pub use head::{FactHead, FunctionHead};
pub use heads::{Heads, name_of};
pub use names::NameSet;
pub use types::{copy_type, fits, joined, written_type};
