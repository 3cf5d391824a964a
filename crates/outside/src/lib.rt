//! The outside world as four traits: files that are read, a sink for output, a disk, and an envelope that makes tags. Each has
//! objects in memory for tests, and the first two a thin adapter over the host.
#![tactic(auto)]

mod call;
mod count;
mod disk;
mod envelope;
mod faults;
mod file_disk;
mod files;
mod host_files;
mod host_sink;
mod laws;
mod list_envelope;
mod memory_disk;
mod memory_files;
mod memory_sink;
mod plain_tag;
mod replaced;
mod schedule;
mod sink;
mod tag_envelope;
mod tracked_bytes;

pub use disk::Disk;
pub use envelope::Envelope;
pub use faults::{DiskStep, Failed, ReadFail};
pub use file_disk::FileDisk;
pub use files::Files;
pub use host_files::HostFiles;
pub use host_sink::HostSink;
pub use laws::earlier_crashes_are_told;
pub use list_envelope::ListEnvelope;
pub use memory_disk::MemoryDisk;
pub use memory_files::MemoryFiles;
pub use memory_sink::MemorySink;
pub use plain_tag::author_of;
pub use sink::Sink;
pub use tag_envelope::TagEnvelope;
