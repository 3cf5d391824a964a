//! What a policy does, run over its tree.
#![tactic(auto)]

mod acting;
mod actions;
mod blocks;
mod calls;
mod cause;
mod expressions;
mod finish;
mod flow;
mod ids;
mod limits;
mod statements;
mod tree_runner;

pub use tree_runner::TreeRunner;
