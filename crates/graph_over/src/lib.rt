//! A graph that borrows another one and owns what is added to it.
#![tactic(auto)]

mod heads;
mod over;
mod parents;
mod room;
mod walk;

pub use over::Over;
