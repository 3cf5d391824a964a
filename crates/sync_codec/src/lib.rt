//! The messages of a session as bytes, both ways.
#![tactic(auto)]

mod front;
mod laws;
mod request;
mod response;

pub use laws::{requests_are_unambiguous, responses_are_unambiguous};
pub use request::Request;
pub use response::Response;
