// Files in memory, some of whose reads fail as planned.
ghost use Rattle.std.specs.Prelude.{◌≡◌, ◌⊎◌, ◌↔◌, ◌+◌, take, Some, IfOk};
ghost use Rattle.std.specs.Option.{option_copied};
ghost use Rattle.outside.specs.Causes.{ReadHasCause};
ghost use Rattle.outside.specs.Files.{ReadsFile, FailsMissing, last_after};
ghost use Rattle.outside.specs.MemoryFiles.{held_in, files_held, files_last, files_plan};
ghost use Rattle.outside.specs.Plan.{IsDue, plan_at_start, plan_after_read};

use crate::schedule::Schedule;
use crate::{Files, ReadFail};
use base_bytes::{Bytes, Text};
use std::alloc::Global;

/// Files in memory, each a name and its bytes; of several with one name the first counts.
#[derive(Drop)]
pub struct MemoryFiles {
    files: Vec<(Text, Bytes)>,
    last: Option<Text>,
    schedule: Schedule,
}

impl MemoryFiles {
    /// Files of which the reads with these numbers, from 1, are to fail. Takes no memory.
    pub fn new(_alloc: Global, files: Vec<(Text, Bytes)>, failing: Vec<u64>) -> MemoryFiles
        ensures holds { files_held result ≡ held_in files.items }
        ensures last { files_last result ≡ None }
        ensures plan { files_plan result ≡ plan_at_start failing.items }
    {
        MemoryFiles {
            files,
            last: None,
            schedule: Schedule::new(failing),
        }
    }
}

// The bytes of the first file with this name.
fn find_file<'a>(files: &'a [(Text, Bytes)], name: &Text) -> Option<&'a Bytes>
    ensures { option_copied result ≡ held_in files.now name.now }
{
    files
        .iter()
        .find(|file| file.0 == *name)
        .map(|file| &file.1)
}

// The first `limit + 1` bytes, or all of fewer.
fn front(bytes: &[u8], limit: u64) -> &[u8]
    ensures { result.now ≡ take (limit + 1) bytes.now }
{
    if bytes.len() as u64 <= limit {
        return bytes;
    }
    &bytes[..limit as usize + 1]
}

impl Files for MemoryFiles {
    ghost holds = { λ files. Some (files_held files) };

    ghost last = { files_last };

    ghost faults = { λ files. (files_plan files).faults };

    ghost faults_fit = { λ files. files.schedule.faults.fits };

    fn read(&mut self, alloc: Global, name: Text, limit: u64) -> Result<Bytes, ReadFail>
        ensures bytes { IfOk result (ReadsFile (Some (files_held self.old)) name limit) }
        ensures missing { FailsMissing (Some (files_held self.old)) name result }
        ensures holds { files_held self.new ≡ files_held self.old }
        ensures last { files_last self.new ≡ last_after result name (files_last self.old) }
        ensures cause { ReadHasCause (files_plan self.old).faults (files_plan self.new).faults result }

        // It fails exactly at the planned calls and at a name that it doesn't hold.
        ensures failed { (result ≡ Err ReadFail.Failed) ↔ (IsDue (files_plan self.old) ⊎ (files_held self.old name ≡ None)) }
        ensures plan { files_plan self.new ≡ plan_after_read result (files_plan self.old) }
    {
        if self.schedule.begin() {
            self.schedule.fail();
            self.last = Some(name);
            return Err(ReadFail::Failed);
        }
        match find_file(&self.files, &name) {
            Some(file) => match Bytes::from_slice(alloc, front(file.as_slice(), limit)) {
                Ok(bytes) => Ok(bytes),
                Err(_) => Err(ReadFail::NoMemory),
            },
            None => {
                self.schedule.fail();
                self.last = Some(name);
                Err(ReadFail::Failed)
            }
        }
    }
}
