//! A lock of turns: each caller knows which turns came before its own, in one history that all callers share.
#![tactic(auto)]

mod board;
mod kept;
mod lock;
mod no_memory;
mod pass;
mod steps;
mod threads;
mod view;

pub use kept::Kept;
pub use lock::TurnLock;
pub use no_memory::NoMemory;
pub use pass::Pass;
pub use threads::cross_threads;
