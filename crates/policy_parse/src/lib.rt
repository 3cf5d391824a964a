//! Reads a policy from its tokens.
#![tactic(auto)]

mod arms;
mod expressions;
mod finish;
mod if_expressions;
mod items;
mod lists;
mod literals;
mod operators;
mod parts;
mod patterns;
mod policy;
mod primaries;
mod sections;
mod statements;
mod tokens;
mod types;
mod unparsed;

pub use policy::{SyntaxFault, parse};
