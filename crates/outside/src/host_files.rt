// The files of the host.
ghost use Rattle.std.specs.Prelude.{◌≡◌, None, IfOk};
ghost use Rattle.outside.specs.Causes.{ReadHasCause, read_faults_after};
ghost use Rattle.outside.specs.Files.{last_after};
ghost use Rattle.outside.specs.Host.{host_files_last, host_files_faults, ReadsFront};

use crate::count::Count;
use crate::{Files, ReadFail};
use base_bytes::{Bytes, Text};
use std::alloc::Global;
use std::io::{ErrorKind, Read};
use std::{fs, io, rt};

/// The files that a runtime opens. What they hold isn't told.
#[derive(Drop)]
pub struct HostFiles<R: rt::Files + Drop> {
    runtime: R,
    last: Option<Text>,
    faults: Count,
}

impl<R: rt::Files + Drop> HostFiles<R> {
    /// The files of this runtime. Takes no memory.
    pub fn new(runtime: R) -> HostFiles<R>
        ensures last { host_files_last result ≡ None }
        ensures faults { host_files_faults result ≡ 0 }
    {
        HostFiles {
            runtime,
            last: None,
            faults: Count::new(),
        }
    }
}

// The first `limit + 1` bytes that the reader gives, or all of fewer.
fn read_front<F: Read + Drop>(alloc: Global, file: F, limit: u64) -> io::Result<Vec<u8>>
    ensures { IfOk result (λ bytes. ReadsFront (F.remaining file) limit bytes.items) }
{
    let mut bytes = Vec::new(alloc);
    let mut front = file.take(limit.saturating_add(1));
    front.read_to_end(&mut bytes)?;
    Ok(bytes)
}

// The first `limit + 1` bytes of the named file, or the whole of a shorter one.
fn read_file<R: rt::Files>(
    runtime: &R,
    alloc: Global,
    name: &str,
    limit: u64,
) -> io::Result<Vec<u8>>
    ensures { IfOk result (λ bytes. (file : R.File) × ReadsFront (R.File.remaining file) limit bytes.items) }
{
    read_front(alloc, fs::open(runtime, name)?, limit)
}

impl<R: rt::Files + Drop> Files for HostFiles<R> {
    ghost holds = { λ files. None };

    ghost last = { host_files_last };

    ghost faults = { host_files_faults };

    ghost faults_fit = { λ files. files.faults.fits };

    fn read(&mut self, alloc: Global, name: Text, limit: u64) -> Result<Bytes, ReadFail>
        ensures last { host_files_last self.new ≡ last_after result name (host_files_last self.old) }
        ensures cause { ReadHasCause (host_files_faults self.old) (host_files_faults self.new) result }
        ensures faults { host_files_faults self.new ≡ read_faults_after result (host_files_faults self.old) }

        // What it gives is the front of some file of the runtime, where that tells its bytes; std doesn't say of which.
        ensures opened { IfOk result (λ bytes. (file : R.File) × ReadsFront (R.File.remaining file) limit bytes) }
    {
        match read_file(&self.runtime, alloc, name.as_str(), limit) {
            Ok(bytes) => Ok(Bytes::from_vec(bytes)),
            Err(error) => {
                if error.kind() == ErrorKind::OutOfMemory {
                    return Err(ReadFail::NoMemory);
                }
                self.faults.raise();
                self.last = Some(name);
                Err(ReadFail::Failed)
            }
        }
    }
}
