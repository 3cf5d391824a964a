//! Words and names.

ghost use Rattle.std.specs.Prelude.{◌≡◌, IfOk, IsTrue};
ghost use Rattle.std.specs.List.{list_all};
ghost use Rattle.std.specs.Str.{IsUtf8};
ghost use Rattle.script.specs.Tokens.{author_id, author_of, is_replica, is_replica_byte, replica_name};
ghost use Rattle.base_bytes.specs.declared.arg.Arg.TheVariants as arg;
ghost use Rattle.script.specs.working.ReadingArguments.{making};
ghost use Rattle.script.specs.working.Readers.{Reads, run_at, seen};
ghost use Rattle.script.specs.working.ReadingTokens.{part_at, word_at};

use crate::runs::{is_replica_byte, part_run, replica_run, unspaced, word_run};
use base_bytes::{Arg, Id, NoMemory, Text, Unread, is_word};
use sha2::{Digest, Sha256};
use std::alloc::Global;

/// A copy of a name.
fn text(alloc: Global, name: &[u8]) -> Result<Text, NoMemory>
    requires { IsUtf8 name.now }
    ensures { IfOk result (λ t. t ≡ name.now) }
{
    match Text::from_utf8(alloc, name)? {
        Some(text) => Ok(text),
        None => unreachable!(),
    }
}

/// The word that bytes begin with, and the bytes behind it.
#[tactic(auto, using(crate::proofs::NameTexts::word_is_text))]
pub fn word<'a>(alloc: Global, bytes: &'a [u8]) -> Result<(Text, &'a [u8]), Unread>
    ensures { Reads seen result (word_at bytes.now) }
{
    let (run, rest) = word_run(bytes);
    if !is_word(run) {
        return Err(Unread::Malformed);
    }
    let name = text(alloc, run)?;
    Ok((name, rest))
}

/// Whether bytes are the name of a replica.
fn is_replica(name: &[u8]) -> bool
    ensures { result ≡ is_replica name.now }
{
    are_replica_bytes(name) && !name.is_empty() && name.len() <= 16
}

fn are_replica_bytes(name: &[u8]) -> bool
    ensures { result ≡ list_all is_replica_byte name.now }
{
    name.iter().all(|byte| is_replica_byte(*byte))
}

/// The name of a replica as the next part of a line, and the bytes behind it.
#[tactic(auto, using(crate::proofs::NameTexts::replica_is_text))]
pub fn replica<'a>(alloc: Global, bytes: &'a [u8]) -> Result<(Text, &'a [u8]), Unread>
    ensures { Reads seen result (part_at replica_name bytes.now) }
{
    let (run, rest) = part_run(unspaced(bytes));
    if !is_replica(run) {
        return Err(Unread::Malformed);
    }
    let name = text(alloc, run)?;
    Ok((name, rest))
}

/// The argument that is the author id of the replica whose name bytes begin with, and the bytes behind it.
pub fn author(bytes: &[u8]) -> Result<(Arg, &[u8]), Unread>
    ensures { Reads seen result (making arg.Ident (run_at is_replica_byte author_of bytes.now)) }
{
    let (run, rest) = replica_run(bytes);
    if is_replica(run) {
        Ok((Arg::Ident(author_id(run)), rest))
    } else {
        Err(Unread::Malformed)
    }
}

/// The author id of the replica with this name.
pub fn author_id(name: &[u8]) -> Id
    ensures { result ≡ author_id name.now }
{
    let mut hasher = Sha256::new();
    hasher.update(b"aranya-device:");
    hasher.update(name);
    Id::new(hasher.finalize())
}
