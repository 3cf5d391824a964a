//! `aranyad`: replicas of a command graph under a policy, in one process.
#![tactic(auto)]

ghost use Rattle.std.specs.Prelude.{◌≡◌, IfOk, length};

mod choose;
mod ending;
mod loading;
mod mode;
mod names;
mod printing;
mod reading;
mod run_command;
mod running;
mod shared_runner;
mod stages;
mod status;
mod telling;
mod words;

use crate::choose::{ChooseFault, choose};
use crate::mode::Mode;
use crate::run_command::run_command;
use crate::status::Status;
use crate::words::words;
use base_bytes::{Bytes, NoMemory, Text};
use outside::{Disk, FileDisk, HostFiles, HostSink, MemoryDisk, TagEnvelope};
use std::alloc::Global;
use std::io;
use std::process::ExitCode;

/// Eight empty disks in memory.
fn empty_disks(alloc: Global) -> Result<Vec<MemoryDisk>, NoMemory>
    ensures { IfOk result (λ disks. length disks.items ≡ 8) }
{
    let mut disks = Vec::new(alloc);
    for _ in 0..8usize {
        disks.push(MemoryDisk::new(alloc, Bytes::new(alloc), Vec::new(alloc)))?;
    }
    Ok(disks)
}

/// The disk of the replica that a script declares at this place, counted from 0: a file in the folder of journals.
fn stored_disk<'a>(
    rt: &'a HostRuntime,
    store: &Text,
    place: usize,
) -> Result<FileDisk<&'a HostRuntime>, NoMemory> {
    let store = store.as_str();
    let number = place.saturating_add(1);
    let path = format!(in rt.alloc(); "{store}/replica-{number}.journal")?;
    Ok(FileDisk::new(rt, Text::from_string(path)))
}

/// The disks of the eight replicas that a script may declare, in the folder of journals. No file is opened yet.
fn stored_disks<'a>(
    rt: &'a HostRuntime,
    store: &Text,
) -> Result<Vec<FileDisk<&'a HostRuntime>>, NoMemory>
    ensures { IfOk result (λ disks. length disks.items ≡ 8) }
{
    let mut disks = Vec::new(rt.alloc());
    for place in 0..8usize {
        disks.push(stored_disk(rt, store, place)?)?;
    }
    Ok(disks)
}

/// Runs the program over the host's files, these disks and the host's standard output.
fn run_over<D: Disk>(rt: &HostRuntime, words: &[Text], disks: Vec<D>) -> Status
    requires { length disks.items ≡ 8 }
{
    let mut disks = disks;
    let mut files = HostFiles::new(rt);
    let mut env = TagEnvelope;
    let mut out = HostSink::new(io::writer(rt));
    run_command(
        rt.alloc(),
        words,
        &mut files,
        &mut disks,
        &mut env,
        &mut out,
    )
}

/// The folder of journals that a mode names.
fn store_of(mode: Mode) -> Option<Text> {
    match mode {
        Mode::Check(_policy) => None,
        Mode::Run(_policy, _script, store) => store,
    }
}

/// Runs the program over the host. Journals stand in files where the words name a folder for them, and else in memory.
fn run_on_host(rt: HostRuntime) -> Result<Status, NoMemory> {
    let alloc = rt.alloc();
    let words = words(&rt, alloc)?;
    let store = match choose(alloc, words.as_slice()) {
        Ok(mode) => store_of(mode),
        Err(ChooseFault::Usage) => None,
        Err(ChooseFault::NoMemory) => return Err(NoMemory),
    };
    match store {
        Some(store) => Ok(run_over(&rt, words.as_slice(), stored_disks(&rt, &store)?)),
        None => Ok(run_over(&rt, words.as_slice(), empty_disks(alloc)?)),
    }
}

fn main(rt: HostRuntime) -> ExitCode {
    let status = run_on_host(rt).unwrap_or(Status::NoMemory);
    ExitCode::from(status.number())
}

#[cfg(test)]
mod tests;
