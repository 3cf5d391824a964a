use crate::replaced::Replaced;

/// A call that changed what a crash may leave of a disk.
#[derive(Drop)]
pub enum Call {
    /// It wrote, or tore a range.
    Wrote(Replaced),
    /// It made sure of all that was written before it.
    Synced,
}
