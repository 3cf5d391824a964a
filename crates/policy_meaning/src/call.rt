use base_bytes::{Id, Values};

/// A command as its policy block sees it: its item number, the values of its fields in declared order, its author and its id.
#[derive(Drop)]
pub struct Call {
    pub command: u32,
    pub fields: Values,
    pub author: Id,
    pub id: Id,
}
