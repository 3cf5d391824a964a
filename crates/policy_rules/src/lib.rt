//! Which policies are well typed: the rules of types as definitions, and what the types of expressions are found by.
#![tactic(auto)]

mod context;
pub mod laws;
mod types;

pub use context::{Block, Context};
pub use types::{Named, NamedType};
