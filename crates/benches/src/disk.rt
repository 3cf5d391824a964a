use base_bytes::{Bytes, NoMemory};
use outside::{Disk, MemoryDisk};
use std::alloc::Global;

/// Writes so many pieces of 100 bytes to a disk in memory, each at its end, and answers how many bytes it then has.
pub fn write_at_end(alloc: Global, rounds: u32) -> Result<usize, NoMemory> {
    let mut disk = MemoryDisk::new(alloc, Bytes::new(alloc), Vec::new(alloc));
    let piece = [7; 100];
    for _ in 0..rounds {
        let end = disk.bytes().len() as u64;
        if disk.write_at(end, &piece).is_err() {
            return Err(NoMemory);
        }
    }
    Ok(disk.bytes().len())
}
