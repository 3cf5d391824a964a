use crate::commit::Commit;
use crate::end::End;

/// What a disk holds.
#[derive(Drop)]
pub enum Found {
    /// Less than two bytes.
    Short,
    /// A closed first gate.
    Fresh,
    /// Commits with their gates, and where they end.
    Held(End, Vec<(u64, Commit)>),
}
