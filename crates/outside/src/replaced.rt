use base_bytes::Bytes;

/// A write, and what it replaced.
#[derive(Drop)]
pub struct Replaced {
    /// The place where it began.
    pub at: usize,
    /// How many bytes it wrote there.
    pub written_length: usize,
    /// The bytes that stood there: fewer than were written where the write went past the end.
    pub under: Bytes,
    /// How many bytes count as written.
    pub range_length: usize,
}
