//! Policies that are known to be well typed, and what that is worth: no evaluation of one gets stuck.
#![tactic(auto)]

mod checked;
pub mod laws;

pub use checked::Checked;
