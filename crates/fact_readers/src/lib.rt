//! Rows of facts that one writer publishes and several readers ask, beside each other.
#![tactic(auto)]

mod book;
mod change;
mod commit;
mod duty;
mod opening;
mod reader;
mod threads;
mod told;
mod trail;
mod version;
mod writer;

pub use book::{Naming, Opened};
pub use change::{Handed, RowChange};
pub use opening::readers;
pub use reader::{FactReader, ReaderOf};
pub use threads::readers_cross_threads;
pub use told::Told;
pub use writer::FactWriter;
