//! Rows of facts in layers that copies share.
#![tactic(auto)]

mod folding;
mod layer;
mod layered_facts;
mod layers;
mod threads;
mod walk;

pub use layered_facts::LayeredFacts;
pub use threads::layered_facts_cross_threads;
