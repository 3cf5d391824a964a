use crate::book::Naming;
use crate::reader::FactReader;
use crate::told::Told;

fn is_sent<X: Send>() {}

/// A reader and what it is told may go to another thread. It does nothing.
pub fn readers_cross_threads<J: Naming + Send + Sync>() {
    is_sent::<FactReader<J>>();
    is_sent::<Told<J>>();
}
