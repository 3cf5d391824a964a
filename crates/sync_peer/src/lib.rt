//! Both sides of a session: what is asked for, and what is answered.
#![tactic(auto)]

mod answering;
mod asking;
mod known;
pub mod laws;

pub use answering::answer_to;
pub use asking::{first_request, next_request};
