//! What the modes of the program print beside the texts of a script's lines.

ghost use Rattle.std.specs.Prelude.{◌≡◌, IfOk};
ghost use Rattle.script_texts.specs.Modes as modes;

use crate::pieces::{joined, phrase};
use crate::words::{Input, Pass, PolicyFault};
use base_bytes::{Bytes, Id, NoMemory, Text};
use std::alloc::Global;

/// The usage line.
pub fn usage_text() -> &'static str
    ensures { result.now ≡ modes.usage_text }
{
    "usage: aranyad check POLICY | run POLICY SCRIPT [--store DIR] | code POLICY | gen N | serve POLICY SCRIPT --rounds N\n"
}

/// Why a policy was refused, in words.
fn policy_fault(what: PolicyFault) -> &'static str
    ensures { result.now ≡ modes.policy_fault what }
{
    match what {
        PolicyFault::NotUtf8 => "not utf-8",
        PolicyFault::NoFrontMatter => "no front matter",
        PolicyFault::WrongVersion => "wrong version",
        PolicyFault::OpenBlock => "open block",
        PolicyFault::BadToken => "bad token",
        PolicyFault::Syntax => "syntax",
        PolicyFault::IllTyped => "type",
    }
}

fn input_word(what: Input) -> &'static str
    ensures { result.now ≡ modes.input_word what }
{
    match what {
        Input::Policy => "policy",
        Input::Script => "script",
        Input::Calls => "calls",
        Input::Snapshot => "snapshot",
        Input::Messages => "messages",
    }
}

/// `policy ok: items N`
pub fn checked_text(alloc: Global, items: usize) -> Result<Bytes, NoMemory>
    ensures { IfOk result (λ text. text ≡ modes.checked_text items) }
{
    let items = items.to_string(alloc)?;
    joined(alloc, &["policy ok: items ", items.as_str(), "\n"])
}

/// `policy refused: WHAT, line L`
pub fn policy_refused_text(alloc: Global, what: PolicyFault, line: u32) -> Result<Bytes, NoMemory>
    ensures { IfOk result (λ text. text ≡ modes.policy_refused_text what line) }
{
    let line = line.to_string(alloc)?;
    joined(
        alloc,
        &[
            "policy refused: ",
            policy_fault(what),
            ", line ",
            line.as_str(),
            "\n",
        ],
    )
}

/// `script refused: line L`
pub fn lines_refused_text(alloc: Global, what: Input, line: u32) -> Result<Bytes, NoMemory>
    ensures { IfOk result (λ text. text ≡ modes.lines_refused_text what line) }
{
    let line = line.to_string(alloc)?;
    joined(
        alloc,
        &[input_word(what), " refused: line ", line.as_str(), "\n"],
    )
}

/// `too large: script`
pub fn too_large_text(alloc: Global, what: Input) -> Result<Bytes, NoMemory>
    ensures { IfOk result (λ text. text ≡ modes.too_large_text what) }
{
    joined(alloc, &["too large: ", input_word(what), "\n"])
}

/// `journal A refused: damaged at N`: the place of the first record that can't be read, in bytes
pub fn damaged_text(alloc: Global, name: &Text, offset: u64) -> Result<Bytes, NoMemory>
    ensures { IfOk result (λ text. text ≡ modes.damaged_text name.now offset) }
{
    let offset = offset.to_string(alloc)?;
    joined(
        alloc,
        &[
            "journal ",
            name.as_str(),
            " refused: damaged at ",
            offset.as_str(),
            "\n",
        ],
    )
}

/// `journal A refused: other policy HEX`: the digest that the journal has
pub fn journal_policy_text(alloc: Global, name: &Text, digest: &Id) -> Result<Bytes, NoMemory>
    ensures { IfOk result (λ text. text ≡ modes.journal_policy_text name.now digest.now) }
{
    let digest = hex::encode(alloc, digest.as_slice())?;
    joined(
        alloc,
        &[
            "journal ",
            name.as_str(),
            " refused: other policy ",
            digest.as_str(),
            "\n",
        ],
    )
}

/// `gen N: lines L`
pub fn generated_text(alloc: Global, rounds: u32, lines: usize) -> Result<Bytes, NoMemory>
    ensures { IfOk result (λ text. text ≡ modes.generated_text rounds lines) }
{
    let rounds = rounds.to_string(alloc)?;
    let lines = lines.to_string(alloc)?;
    joined(
        alloc,
        &["gen ", rounds.as_str(), ": lines ", lines.as_str(), "\n"],
    )
}

/// `A: commands C, facts F, effects E, digest HEX`: the SHA-256 of the rows that `facts` prints
pub fn summary_text(
    alloc: Global,
    name: &Text,
    commands: usize,
    facts: usize,
    effects: usize,
    digest: &Id,
) -> Result<Bytes, NoMemory>
    ensures { IfOk result (λ text. text ≡ modes.summary_text name.now commands facts effects digest.now) }
{
    let commands = commands.to_string(alloc)?;
    let facts = facts.to_string(alloc)?;
    let effects = effects.to_string(alloc)?;
    let digest = hex::encode(alloc, digest.as_slice())?;
    joined(
        alloc,
        &[
            name.as_str(),
            ": commands ",
            commands.as_str(),
            ", facts ",
            facts.as_str(),
            ", effects ",
            effects.as_str(),
            ", digest ",
            digest.as_str(),
            "\n",
        ],
    )
}

/// Who made a turn, in words.
fn pass_word(alloc: Global, who: &Pass) -> Result<Text, NoMemory>
    ensures { IfOk result (λ text. text ≡ modes.pass_word who.now) }
{
    match who {
        Pass::Main => phrase(alloc, &["main"]),
        Pass::Calls => phrase(alloc, &["calls"]),
        Pass::Sync(name) => phrase(alloc, &["sync ", name.as_str()]),
    }
}

/// `  1 main: `, in front of the line of a turn's reply; turns are numbered from 1
pub fn turn_text(alloc: Global, number: usize, who: &Pass) -> Result<Bytes, NoMemory>
    ensures { IfOk result (λ text. text ≡ modes.turn_text number who.now) }
{
    let number = number.to_string(alloc)?;
    let who = pass_word(alloc, who)?;
    joined(alloc, &["  ", number.as_str(), " ", who.as_str(), ": "])
}

/// `session A: said P, effects E`
pub fn said_text(alloc: Global, name: &Text, said: usize, effects: usize) -> Result<Bytes, NoMemory>
    ensures { IfOk result (λ text. text ≡ modes.said_text name.now said effects) }
{
    let said = said.to_string(alloc)?;
    let effects = effects.to_string(alloc)?;
    joined(
        alloc,
        &[
            "session ",
            name.as_str(),
            ": said ",
            said.as_str(),
            ", effects ",
            effects.as_str(),
            "\n",
        ],
    )
}

/// `  B: heard H, refused K`
pub fn heard_text(
    alloc: Global,
    name: &Text,
    heard: usize,
    refused: usize,
) -> Result<Bytes, NoMemory>
    ensures { IfOk result (λ text. text ≡ modes.heard_text name.now heard refused) }
{
    let heard = heard.to_string(alloc)?;
    let refused = refused.to_string(alloc)?;
    joined(
        alloc,
        &[
            "  ",
            name.as_str(),
            ": heard ",
            heard.as_str(),
            ", refused ",
            refused.as_str(),
            "\n",
        ],
    )
}

/// `watch A FACT: commits C`
pub fn watched_text(
    alloc: Global,
    name: &Text,
    fact: &Text,
    commits: u64,
) -> Result<Bytes, NoMemory>
    ensures { IfOk result (λ text. text ≡ modes.watched_text name.now fact.now commits) }
{
    let commits = commits.to_string(alloc)?;
    joined(
        alloc,
        &[
            "watch ",
            name.as_str(),
            " ",
            fact.as_str(),
            ": commits ",
            commits.as_str(),
            "\n",
        ],
    )
}

/// `reader I: reads N`; readers are numbered from 1
pub fn reader_text(alloc: Global, reader: u32, reads: u64) -> Result<Bytes, NoMemory>
    ensures { IfOk result (λ text. text ≡ modes.reader_text reader reads) }
{
    let reader = reader.to_string(alloc)?;
    let reads = reads.to_string(alloc)?;
    joined(
        alloc,
        &["reader ", reader.as_str(), ": reads ", reads.as_str(), "\n"],
    )
}

/// `  n count`: how many commits were published, and what was read
pub fn read_text(alloc: Global, commits: u64, count: u64) -> Result<Bytes, NoMemory>
    ensures { IfOk result (λ text. text ≡ modes.read_text commits count) }
{
    let commits = commits.to_string(alloc)?;
    let count = count.to_string(alloc)?;
    joined(alloc, &["  ", commits.as_str(), " ", count.as_str(), "\n"])
}

/// `watch refused: no fact FACT`: a mode, and the kind and the name of what isn't there
pub fn no_subject_text(
    alloc: Global,
    mode: &str,
    kind: &str,
    name: &Text,
) -> Result<Bytes, NoMemory>
    ensures { IfOk result (λ text. text ≡ modes.no_subject_text mode.now kind.now name.now) }
{
    joined(
        alloc,
        &[mode, " refused: no ", kind, " ", name.as_str(), "\n"],
    )
}

/// `snapshot refused: WHY`, where `why` is `no finalize`, `malformed` or `unclosed`
pub fn snapshot_refused_text(alloc: Global, why: &str) -> Result<Bytes, NoMemory>
    ensures { IfOk result (λ text. text ≡ modes.snapshot_refused_text why.now) }
{
    joined(alloc, &["snapshot refused: ", why, "\n"])
}

/// `snapshot refused: other policy HEX`: the digest that the snapshot has
pub fn snapshot_policy_text(alloc: Global, digest: &Id) -> Result<Bytes, NoMemory>
    ensures { IfOk result (λ text. text ≡ modes.snapshot_policy_text digest.now) }
{
    let digest = hex::encode(alloc, digest.as_slice())?;
    joined(
        alloc,
        &["snapshot refused: other policy ", digest.as_str(), "\n"],
    )
}

/// `snapshot HEX: commands N`: the SHA-256 of the snapshot's bytes
pub fn snapshot_text(alloc: Global, digest: &Id, commands: usize) -> Result<Bytes, NoMemory>
    ensures { IfOk result (λ text. text ≡ modes.snapshot_text digest.now commands) }
{
    let digest = hex::encode(alloc, digest.as_slice())?;
    let commands = commands.to_string(alloc)?;
    joined(
        alloc,
        &[
            "snapshot ",
            digest.as_str(),
            ": commands ",
            commands.as_str(),
            "\n",
        ],
    )
}
