// A journal on a disk in memory to which an init and a command are added.
ghost use Rattle.std.specs.Prelude.{◌≡◌, ◌∷◌, ◌++◌, [], All, IfOk, IfSome, OnOk, IsTrue, List, ℕ, length};
ghost use Rattle.command.specs.Wire.{IsInForm};
ghost use Rattle.journal.specs.Calls.{CanAdd, journal_outline};
ghost use Rattle.journal.specs.Commits.{begins_with_init};
ghost use Rattle.command.specs.declared.command.Command.{Command as ACommand};
ghost use Rattle.journal.specs.declared.commit.Commit.{Commit as ACommit};
ghost use Rattle.journal.specs.declared.commit.Commit.TheVariants as a_commit;
ghost use Rattle.journal_tests.specs.Working.{Works};

use base_bytes::{Bytes, Id, NoMemory};
use command::{Command, Commands};
use journal::{Commit, DiskStep, Journal, OpenFault, open_journal};
use outside::MemoryDisk;
use std::alloc::Global;

/// Why nothing more was added.
#[derive(Clone, Copy, Debug, PartialEq, Eq)]
pub enum Stop {
    Open(OpenFault),
    Disk(DiskStep),
    /// The disk held commits.
    NotNew,
    /// The first command is no init.
    NoInit,
    NoMemory,
}

impl From<NoMemory> for Stop {
    fn from(_error: NoMemory) -> Stop {
        Stop::NoMemory
    }
}

/// Begins a journal on an empty disk, of which the calls with these numbers fail.
pub fn begin(
    alloc: Global,
    disk: MemoryDisk,
    digest: &Id,
) -> Result<Journal<MemoryDisk>, (Stop, MemoryDisk)>
    ensures { IfOk result (λ journal. Works journal digest.now []) }
{
    match open_journal(alloc, disk, digest) {
        Ok((journal, commits)) => {
            if !commits.is_empty() {
                return Err((Stop::NotNew, journal.into_disk()));
            }
            Ok(journal)
        }
        Err((fault, disk)) => Err((Stop::Open(fault), disk)),
    }
}

fn begins_with_init(commands: &Commands) -> bool
    ensures { result ≡ begins_with_init commands.now }
{
    match commands.as_slice() {
        [Command::Init { .. }, ..] => true,
        _ => false,
    }
}

/// Adds one commit.
pub fn add(alloc: Global, journal: &mut Journal<MemoryDisk>, commit: &Commit) -> Result<(), Stop>
    requires works { (digest : List ℕ) × (commits : List ACommit) × Works journal.old digest commits }
    requires can { CanAdd (journal_outline journal.old) commit.now }
    ensures { OnOk result ((digest : List ℕ) (commits : List ACommit) → Works journal.old digest commits → Works journal.new digest (commits ++ commit.now ∷ [])) }
{
    let ready = journal.ready(alloc, commit)?;
    match journal.commit(ready) {
        Ok(()) => Ok(()),
        Err(step) => Err(Stop::Disk(step)),
    }
}

/// Adds an init.
pub fn add_init(
    alloc: Global,
    journal: &mut Journal<MemoryDisk>,
    digest: &Id,
    commands: Commands,
) -> Result<(), Stop>
    requires works { Works journal.old digest.now [] }
    requires one { length commands ≡ 1 }
    requires in_form { All IsInForm commands }
    ensures { OnOk result (Works journal.new digest.now (a_commit.Commands commands ∷ [])) }
{
    if !begins_with_init(&commands) {
        return Err(Stop::NoInit);
    }
    add(alloc, journal, &Commit::Commands(commands))
}

/// Adds a command behind the init.
pub fn add_next(
    alloc: Global,
    journal: &mut Journal<MemoryDisk>,
    commands: Commands,
) -> Result<(), Stop>
    requires works { (digest : List ℕ) × (first : List ACommand) × Works journal.old digest (a_commit.Commands first ∷ []) × (length first ≡ 1) }
    requires one { length commands ≡ 1 }
    requires in_form { All IsInForm commands }
{
    add(alloc, journal, &Commit::Commands(commands))
}
