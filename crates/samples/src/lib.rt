//! What tests and benchmarks are made of: graphs that are made step by step, or by several writers from a seed; and callers that take turns at a lock.
#![tactic(auto)]

pub mod callers;
pub mod made;
pub mod tally;
pub mod turn;
pub mod writers;
