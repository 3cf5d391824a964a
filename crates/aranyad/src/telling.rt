//! Endings of one line: refusals, and what a policy was taken for.

ghost use Rattle.std.specs.Prelude.{◌≡◌, ◌≢◌, Some, Ok, Err, IfOk, IfSome};
ghost use Rattle.replica.specs.Calls.{IsRefusedJournal};
ghost use Rattle.script_texts.specs.Modes as modes;
ghost use Rattle.script_texts.specs.declared.words.Input.TheVariants as input;
ghost use Rattle.aranyad.specs.Checking.{Checks, ChecksFile};
ghost use Rattle.aranyad.specs.Ending.{HaltsWithCause, SaysOrLacks, counts};
ghost use Rattle.aranyad.specs.Loading.{limited, policy_limit};
ghost use Rattle.aranyad.specs.Printing.{Goes, Says};
ghost use Rattle.aranyad.specs.Scripts.{journal_text};
ghost use Rattle.aranyad.specs.declared.ending.Ending.TheVariants as ending;
ghost use Rattle.aranyad.specs.declared.ending.Halt.TheVariants as halt;

use crate::ending::{Ending, Halt};
use crate::loading::{Loaded, load_policy};
use crate::printing::say;
use base_bytes::{Bytes, NoMemory, Text};
use journal::OpenFault;
use outside::{Files, Sink};
use script_texts::{
    Input, checked_text, damaged_text, journal_policy_text, lines_refused_text, too_large_text,
};
use std::alloc::Global;

/// Says that a file has too many bytes.
pub fn refuse_large<K: Sink>(alloc: Global, what: Input, out: &mut K) -> Result<Ending, Halt>
    ensures goes { Goes (Says ending.TooLarge (modes.too_large_text what)) result (K.written out.old) (K.written out.new) }
    ensures cause { SaysOrLacks (K.faults out.old) (K.faults out.new) result }
{
    match too_large_text(alloc, what) {
        Ok(line) => say(out, Ending::TooLarge, line.as_slice()),
        Err(NoMemory) => Err(Halt::Memory),
    }
}

/// Says which line of a script is refused.
pub fn refuse_line<K: Sink>(alloc: Global, number: u32, out: &mut K) -> Result<Ending, Halt>
    ensures goes { Goes (Says ending.ScriptRefused (modes.lines_refused_text input.Script number)) result (K.written out.old) (K.written out.new) }
    ensures cause { SaysOrLacks (K.faults out.old) (K.faults out.new) result }
{
    match lines_refused_text(alloc, Input::Script, number) {
        Ok(line) => say(out, Ending::ScriptRefused, line.as_slice()),
        Err(NoMemory) => Err(Halt::Memory),
    }
}

/// Why a journal is refused, as it is printed.
fn journal_line(alloc: Global, name: &Text, cause: &OpenFault) -> Result<Bytes, NoMemory>
    requires refused { IsRefusedJournal cause.now }
    ensures { IfOk result (λ text. text ≡ journal_text name.now cause.now) }
{
    match cause {
        OpenFault::Damaged { offset } => damaged_text(alloc, name, *offset),
        OpenFault::OtherPolicy { digest } => journal_policy_text(alloc, name, digest),
        OpenFault::DiskFault(_) | OpenFault::NoMemory => unreachable!(),
    }
}

/// Says why the journal on the disk of the replica of this name is refused.
pub fn refuse_journal<K: Sink>(
    alloc: Global,
    name: &Text,
    cause: &OpenFault,
    out: &mut K,
) -> Result<Ending, Halt>
    requires refused { IsRefusedJournal cause.now }
    ensures goes { Goes (Says ending.JournalRefused (journal_text name.now cause.now)) result (K.written out.old) (K.written out.new) }
    ensures cause { SaysOrLacks (K.faults out.old) (K.faults out.new) result }
{
    match journal_line(alloc, name, cause) {
        Ok(line) => say(out, Ending::JournalRefused, line.as_slice()),
        Err(NoMemory) => Err(Halt::Memory),
    }
}

/// Says how many items a policy has.
fn tell_items<K: Sink>(alloc: Global, number: usize, out: &mut K) -> Result<Ending, Halt>
    ensures goes { Goes (Says ending.Done (modes.checked_text number)) result (K.written out.old) (K.written out.new) }
    ensures cause { SaysOrLacks (K.faults out.old) (K.faults out.new) result }
{
    match checked_text(alloc, number) {
        Ok(line) => say(out, Ending::Done, line.as_slice()),
        Err(NoMemory) => Err(Halt::Memory),
    }
}

/// Says what the policy's file was taken for.
fn tell_loaded<K: Sink>(alloc: Global, policy: &Loaded, out: &mut K) -> Result<Ending, Halt>
    ensures goes { Goes (Checks policy.now) result (K.written out.old) (K.written out.new) }
    ensures cause { SaysOrLacks (K.faults out.old) (K.faults out.new) result }
{
    match policy {
        Loaded::TooLarge => refuse_large(alloc, Input::Policy, out),
        Loaded::Refused(line) => say(out, Ending::PolicyRefused, line.as_slice()),
        Loaded::Whole(_, policy) => tell_items(alloc, policy.policy().items().len(), out),
    }
}

/// Judges the policy's file, and prints what it was taken for.
pub fn check_file<F: Files, K: Sink>(
    alloc: Global,
    policy: Text,
    files: &mut F,
    out: &mut K,
) -> Result<Ending, Halt>
    ensures goes { IfSome (F.holds files.old) (λ at. Goes (ChecksFile (limited policy_limit (at policy))) result (K.written out.old) (K.written out.new)) }
    ensures cause { HaltsWithCause ⊥ (counts (F.faults files.old) 0 (K.faults out.old)) (counts (F.faults files.new) 0 (K.faults out.new)) result }
    ensures no_seal { result ≢ Err halt.Seal }
    ensures no_journal { result ≢ Ok ending.JournalRefused }
    ensures last { result ≡ Err halt.Read → F.last files.new ≡ Some policy }
{
    match load_policy(alloc, files, policy) {
        Ok(loaded) => tell_loaded(alloc, &loaded, out),
        Err(halt) => Err(halt),
    }
}
