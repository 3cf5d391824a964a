use base_bytes::{Id, Text};

/// A command as `graph` shows it, behind its id.
#[derive(Drop)]
pub enum ShownCommand {
    /// Its name.
    Init(Text),
    /// Its name, its priority and its parent.
    Basic(Text, u32, Id),
    /// Its name and its parent.
    Finalize(Text, Id),
    /// Its parents, the smaller one first.
    Merge(Id, Id),
}
