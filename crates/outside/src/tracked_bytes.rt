// Bytes that are written in place, with a record of all calls and of what each write replaced.
ghost use Rattle.std.specs.Prelude.{◌≡◌, ℕ, ◌<◌, ◌≤◌, length, slice_index, reverse, take, drop, OnOk, OnErr};
ghost use Rattle.outside.specs.Disk.{IsImage, overwritten, content_at_rest, after_part, after_sync};
ghost use Rattle.outside.specs.Replaced.{moment_after};

use crate::call::Call;
use crate::replaced::Replaced;
use base_bytes::{Bytes, NoMemory};
use std::alloc::Global;

/// The bytes, and the calls that changed them or what a crash may leave of them, the latest last.
#[derive(Drop)]
pub struct TrackedBytes {
    bytes: Vec<u8>,
    calls: Vec<Call>,
    ghost are_bytes: { (place : ℕ) → slice_index bytes.items place < 256 },
    ghost image: { IsImage (moment_after (reverse calls.items) bytes.items) bytes.items },
}

// The bytes from this place on, so many or all of fewer.
fn front_at(bytes: &[u8], at: usize, count: usize) -> &[u8]
    requires { at ≤ length bytes.now }
    ensures { result.now ≡ take count (drop at bytes.now) }
{
    let rest = &bytes[at..];
    &rest[..count.min(rest.len())]
}

// Writes the piece over the bytes; without memory they stay.
fn overwrite(bytes: &mut Vec<u8>, at: usize, piece: &[u8]) -> Result<(), NoMemory>
    requires { at ≤ length bytes.old.items }
    ensures ok { OnOk result (bytes.new.items ≡ overwritten bytes.old.items at piece.now) }
    ensures err { OnErr result (bytes.new.items ≡ bytes.old.items) }
{
    let inside = piece.len().min(bytes.len() - at);
    bytes.extend_from_slice(&piece[inside..])?;
    bytes.as_mut_slice()[at..at + inside].copy_from_slice(&piece[..inside]);
    Ok(())
}

// That the numbers of a slice are bytes is known where it is passed.
fn known_bytes(bytes: &[u8])
    ensures { (place : ℕ) → slice_index bytes.now place < 256 }
{
    let _count = bytes.len();
}

impl TrackedBytes {
    ghost use Rattle.outside.specs.Tracked.{tracked_content};

    /// These bytes, as synced. Takes no memory.
    pub fn new(alloc: Global, bytes: Bytes) -> TrackedBytes
        ensures { tracked_content result ≡ content_at_rest bytes }
    {
        let bytes = bytes.into_vec();
        known_bytes(&bytes);
        TrackedBytes {
            bytes,
            calls: Vec::new(alloc),
        }
    }

    pub fn as_slice(&self) -> &[u8]
        ensures { result.now ≡ (tracked_content self.now).reads }
    {
        self.bytes.as_slice()
    }

    /// Writes the front of a range of so many bytes, all of which then count as written. Without memory it does nothing.
    pub fn write(
        &mut self,
        alloc: Global,
        at: usize,
        front: &[u8],
        range_length: usize,
    ) -> Result<(), NoMemory>
        requires inside { at ≤ length (tracked_content self.old).reads }
        requires front { length front.now ≤ range_length }
        ensures ok { OnOk result (tracked_content self.new ≡ after_part at range_length front.now (tracked_content self.old)) }
        ensures err { OnErr result (tracked_content self.new ≡ tracked_content self.old) }
    {
        let under = Bytes::from_slice(alloc, front_at(self.bytes.as_slice(), at, front.len()))?;
        self.calls.reserve(1)?;
        overwrite(&mut self.bytes, at, front)?;
        known_bytes(&self.bytes);
        let write = Replaced {
            at,
            written_length: front.len(),
            under,
            range_length,
        };
        self.calls.push(Call::Wrote(write)).unwrap();
        Ok(())
    }

    /// Records that all was made sure of. Without memory it does nothing.
    pub fn sync(&mut self) -> Result<(), NoMemory>
        ensures ok { OnOk result (tracked_content self.new ≡ after_sync (tracked_content self.old)) }
        ensures err { OnErr result (tracked_content self.new ≡ tracked_content self.old) }
    {
        self.calls.push(Call::Synced)?;
        Ok(())
    }
}
