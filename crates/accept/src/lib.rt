//! Admission: which commands a graph takes, and why it refuses the others.
#![tactic(auto)]

mod admission;
mod answer;
mod cuts;
mod forms;
pub mod laws;
mod parallel;
mod places;
mod reasons;
mod tags;

pub use admission::{admit, admit_in};
pub use answer::{Admit, Reason};
