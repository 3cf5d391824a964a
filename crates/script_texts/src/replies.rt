//! What a line of a script prints. `verb` and `names` are the line's opening, as `act` and `a` of `act a: ..`.

ghost use Rattle.std.specs.Prelude.{◌≡◌, IfOk, map, string_bytes};
ghost use Rattle.script_texts.specs.Replies.{answered_text, done_text, held_text, joined_text, message_name, message_text, more_word, no_message_text, published_text, refused_command_text, refused_text, replica_text, synced_text, taken_counts, taken_text};

use crate::pieces::{joined, phrase, reply_line};
use crate::refusal::{CommandRefusal, LineRefusal};
use crate::refusals::{command_reason, line_reason};
use crate::words::MessageName;
use base_bytes::{Bytes, Id, NoMemory, Text};
use std::alloc::Global;

/// `replica A holds N`: how many commands the replica holds.
pub fn replica_text(alloc: Global, name: &Text, held: usize) -> Result<Bytes, NoMemory>
    ensures { IfOk result (λ text. text ≡ replica_text name.now held) }
{
    let held = held.to_string(alloc)?;
    joined(
        alloc,
        &["replica ", name.as_str(), " holds ", held.as_str(), "\n"],
    )
}

/// How a text names a message.
fn message_name(alloc: Global, message: &MessageName) -> Result<String, NoMemory>
    ensures { IfOk result (λ text. string_bytes text ≡ message_name message.now) }
{
    match message {
        MessageName::Number(number) => Ok(number.to_string(alloc)?),
        MessageName::Digest(digest) => Ok(hex::encode(alloc, digest.as_slice())?),
    }
}

/// `act A: published P, merges M, cut K, entries E`: how many commands the action published, how many joined heads before it, how many of the run before still stand at its front, and how many entries are new behind them.
pub fn published_text(
    alloc: Global,
    verb: &str,
    names: &[&str],
    commands: usize,
    merges: usize,
    cut: usize,
    entries: usize,
) -> Result<Bytes, NoMemory>
    ensures { IfOk result (λ text. text ≡ published_text verb.now (map (λ name. name.now) names.now) commands merges cut entries) }
{
    let commands = commands.to_string(alloc)?;
    let merges = merges.to_string(alloc)?;
    let cut = cut.to_string(alloc)?;
    let entries = entries.to_string(alloc)?;
    reply_line(
        alloc,
        verb,
        names,
        &[
            "published ",
            commands.as_str(),
            ", merges ",
            merges.as_str(),
            ", cut ",
            cut.as_str(),
            ", entries ",
            entries.as_str(),
        ],
    )
}

/// `join A: ok`
pub fn joined_text(alloc: Global, verb: &str, names: &[&str]) -> Result<Bytes, NoMemory>
    ensures { IfOk result (λ text. text ≡ joined_text verb.now (map (λ name. name.now) names.now)) }
{
    reply_line(alloc, verb, names, &["ok"])
}

/// `ask A: message n`
pub fn message_text(
    alloc: Global,
    verb: &str,
    names: &[&str],
    message: &MessageName,
) -> Result<Bytes, NoMemory>
    ensures { IfOk result (λ text. text ≡ message_text verb.now (map (λ name. name.now) names.now) message.now) }
{
    let message = message_name(alloc, message)?;
    reply_line(alloc, verb, names, &["message ", message.as_str()])
}

/// `next A: done`
pub fn done_text(alloc: Global, verb: &str, names: &[&str]) -> Result<Bytes, NoMemory>
    ensures { IfOk result (λ text. text ≡ done_text verb.now (map (λ name. name.now) names.now)) }
{
    reply_line(alloc, verb, names, &["done"])
}

/// `next A: no message`, where the message that a line names wasn't made
pub fn no_message_text(alloc: Global, verb: &str, names: &[&str]) -> Result<Bytes, NoMemory>
    ensures { IfOk result (λ text. text ≡ no_message_text verb.now (map (λ name. name.now) names.now)) }
{
    reply_line(alloc, verb, names, &["no message"])
}

fn more_word(more: bool) -> &'static str
    ensures { result.now ≡ more_word more }
{
    if more { "yes" } else { "no" }
}

/// `answer A: message n, commands C, more yes`
pub fn answered_text(
    alloc: Global,
    verb: &str,
    names: &[&str],
    message: &MessageName,
    commands: usize,
    more: bool,
) -> Result<Bytes, NoMemory>
    ensures { IfOk result (λ text. text ≡ answered_text verb.now (map (λ name. name.now) names.now) message.now commands more) }
{
    let message = message_name(alloc, message)?;
    let commands = commands.to_string(alloc)?;
    reply_line(
        alloc,
        verb,
        names,
        &[
            "message ",
            message.as_str(),
            ", commands ",
            commands.as_str(),
            ", more ",
            more_word(more),
        ],
    )
}

fn taken_counts(
    alloc: Global,
    added: usize,
    repeats: usize,
    refused: usize,
) -> Result<Text, NoMemory>
    ensures { IfOk result (λ text. text ≡ taken_counts added repeats refused) }
{
    let added = added.to_string(alloc)?;
    let repeats = repeats.to_string(alloc)?;
    let refused = refused.to_string(alloc)?;
    phrase(
        alloc,
        &[
            "added ",
            added.as_str(),
            ", repeat ",
            repeats.as_str(),
            ", refused ",
            refused.as_str(),
        ],
    )
}

/// `take A: added X, repeat Y, refused Z, cut K, entries E`. A `refused_command_text` for each refused command follows.
pub fn taken_text(
    alloc: Global,
    verb: &str,
    names: &[&str],
    added: usize,
    repeats: usize,
    refused: usize,
    cut: usize,
    entries: usize,
) -> Result<Bytes, NoMemory>
    ensures { IfOk result (λ text. text ≡ taken_text verb.now (map (λ name. name.now) names.now) added repeats refused cut entries) }
{
    let counts = taken_counts(alloc, added, repeats, refused)?;
    let cut = cut.to_string(alloc)?;
    let entries = entries.to_string(alloc)?;
    reply_line(
        alloc,
        verb,
        names,
        &[
            counts.as_str(),
            ", cut ",
            cut.as_str(),
            ", entries ",
            entries.as_str(),
        ],
    )
}

/// `sync A B: answers N, added X, repeat Y, refused Z`: the sums over all takes. A `refused_command_text` for each refused command follows.
pub fn synced_text(
    alloc: Global,
    verb: &str,
    names: &[&str],
    answers: usize,
    added: usize,
    repeats: usize,
    refused: usize,
) -> Result<Bytes, NoMemory>
    ensures { IfOk result (λ text. text ≡ synced_text verb.now (map (λ name. name.now) names.now) answers added repeats refused) }
{
    let answers = answers.to_string(alloc)?;
    let counts = taken_counts(alloc, added, repeats, refused)?;
    reply_line(
        alloc,
        verb,
        names,
        &["answers ", answers.as_str(), ", ", counts.as_str()],
    )
}

/// `  refused ID: WHY`, for one command of a `take` or a `sync`
pub fn refused_command_text(alloc: Global, id: &Id, why: &CommandRefusal) -> Result<Bytes, NoMemory>
    ensures { IfOk result (λ text. text ≡ refused_command_text id.now why.now) }
{
    let hex = hex::encode(alloc, id.as_slice())?;
    let why = command_reason(alloc, why)?;
    joined(
        alloc,
        &["  refused ", hex.as_str(), ": ", why.as_str(), "\n"],
    )
}

/// `restart A: holds N`: how many commands the replica holds
pub fn held_text(alloc: Global, verb: &str, names: &[&str], held: usize) -> Result<Bytes, NoMemory>
    ensures { IfOk result (λ text. text ≡ held_text verb.now (map (λ name. name.now) names.now) held) }
{
    let held = held.to_string(alloc)?;
    reply_line(alloc, verb, names, &["holds ", held.as_str()])
}

/// `act A: refused WHY`
pub fn refused_text(
    alloc: Global,
    verb: &str,
    names: &[&str],
    why: &LineRefusal,
) -> Result<Bytes, NoMemory>
    ensures { IfOk result (λ text. text ≡ refused_text verb.now (map (λ name. name.now) names.now) why.now) }
{
    let why = line_reason(alloc, why)?;
    reply_line(alloc, verb, names, &["refused ", why.as_str()])
}
