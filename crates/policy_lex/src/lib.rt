//! The tokens of a policy document.
#![tactic(auto)]

mod block_tokens;
mod blocks;
mod document;
mod fault;
mod fences;
mod front_matter;
mod lines;
mod number;
mod prefix;
mod quoted;
mod spaces;
mod symbol;
mod token;
mod trivia;
mod word;

pub use document::tokens;
pub use fault::LexFault;
pub use lines::{line_end, without_carriage_return};
pub use number::number_at;
