//! Running a braid by a policy; what a replica keeps of its graph; and the laws that its users rely on.
#![tactic(auto)]

mod entries;
mod entry;
mod facts;
pub mod laws;
mod running;
mod state;

pub use entries::Entries;
pub use entry::{Entry, Outcome};
pub use facts::{Kept, facts_under, judged_under};
pub use running::{Ran, run_above, run_all};
pub use state::State;
