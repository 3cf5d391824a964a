// What a call of the outside answers where it did not do its work.

/// The call failed, and the count of faults of its object rose in it.
#[derive(Clone, Copy, Debug, PartialEq, Eq)]
pub struct Failed;

/// Why a read gave nothing: the files failed, or there was not enough memory for the bytes.
#[derive(Clone, Copy, Debug, PartialEq, Eq)]
pub enum ReadFail {
    Failed,
    NoMemory,
}

/// What a disk was doing when it failed: `len` and `read_at` read, `write_at` writes, `sync` syncs.
#[derive(Clone, Copy, Debug, PartialEq, Eq)]
pub enum DiskStep {
    Read,
    Write,
    Sync,
}
