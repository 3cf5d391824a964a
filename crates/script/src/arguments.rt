//! Arguments of an action. A reader takes the bytes that are left, and answers what they begin with and the bytes behind it.

ghost use Rattle.std.specs.Prelude.{◌≡◌, [], length, codes};
ghost use Rattle.script.specs.working.ReadingArguments.{argument_within, argument_at, behind_word, constant, field_at, ident_at, plain_argument, some_from, worded_argument};
ghost use Rattle.script.specs.working.ReadingLines.{arguments_at};
ghost use Rattle.script.specs.working.Readers.{Reads, listed, members, seen};

use crate::hex_bytes::{hex, id};
use crate::lists::{Separator, behind_member};
use crate::marks::{after, expect, mark};
use crate::names::{author, word};
use crate::numbers::number;
use crate::quoted::quoted;
use crate::runs::unspaced;
use base_bytes::{Arg, Text, Unread, begins_with_letter};
use sqlite_items::{Boxed, Items};
use std::alloc::Global;

/// How deep arguments may lie in one another.
const DEEPEST: usize = 64;

/// What was read, and the bytes behind it.
type Read<'a, T> = Result<(T, &'a [u8]), Unread>;

/// The arguments of a call, from behind the mark that opens them, and the bytes behind the mark that closes them.
pub fn arguments<'a>(alloc: Global, bytes: &'a [u8]) -> Read<'a, Items<Arg>>
    ensures { Reads seen result (arguments_at bytes.now) }
{
    if let Some(rest) = mark(b")", bytes) {
        return Ok((Items::new(alloc), rest));
    }
    some_arguments(alloc, bytes)
}

#[tactic(auto, using(crate::proofs::Turns::members_turn, crate::proofs::Turns::members_full))]
fn some_arguments<'a>(alloc: Global, bytes: &'a [u8]) -> Read<'a, Items<Arg>>
    ensures { Reads seen result (members (codes ")") argument_at (length bytes.now) [] bytes.now) }
{
    let mut found = Items::new(alloc);
    let mut rest = bytes;
    for _ in 0..bytes.len() {
        let (one, behind) = argument(alloc, DEEPEST, unspaced(rest))?;
        found.push(one)?;
        match behind_member(b")", behind)? {
            Separator::Close(behind) => return Ok((found, behind)),
            Separator::Comma(behind) => rest = behind,
        }
    }
    Err(Unread::Malformed)
}

/// An argument, in which others lie at most `depth` deep, itself counted.
#[tactic(auto, using(crate::proofs::Turns::within_none, crate::proofs::Turns::within_step))]
#[cycle(argument)]
fn argument<'a>(alloc: Global, depth: usize, bytes: &'a [u8]) -> Read<'a, Arg>
    ensures { Reads seen result (argument_within depth bytes.now) }
{
    if depth == 0 {
        return Err(Unread::Malformed);
    }
    if begins_with_letter(bytes) {
        worded(alloc, depth - 1, bytes)
    } else {
        plain(alloc, bytes)
    }
}

/// An argument that begins with no letter.
fn plain<'a>(alloc: Global, bytes: &'a [u8]) -> Read<'a, Arg>
    ensures { Reads seen result (plain_argument bytes.now) }
{
    if let Some(mid) = after(b"\"", bytes) {
        let (text, rest) = quoted(alloc, mid)?;
        return Ok((Arg::Str(text), rest));
    }
    if let Some(mid) = after(b"@", bytes) {
        return author(mid);
    }
    if let Some(mid) = after(b"0x", bytes) {
        let (raw, rest) = hex(alloc, mid)?;
        return Ok((Arg::Raw(raw), rest));
    }
    let (value, rest) = number(bytes)?;
    Ok((Arg::Int(value), rest))
}

/// An argument that begins with a word.
#[cycle(argument)]
fn worded<'a>(alloc: Global, depth: usize, bytes: &'a [u8]) -> Read<'a, Arg>
    ensures { Reads seen result (worded_argument (argument_within depth) bytes.now) }
{
    let (name, behind) = word(alloc, bytes)?;
    if let Some(mid) = after(b"::", behind) {
        let (variant, rest) = word(alloc, mid)?;
        return Ok((Arg::Variant(name, variant), rest));
    }
    behind_word(alloc, depth, name, behind)
}

/// An argument from behind its first word, where no path goes on.
#[cycle(argument)]
fn behind_word<'a>(alloc: Global, depth: usize, name: Text, bytes: &'a [u8]) -> Read<'a, Arg>
    ensures { Reads seen result (behind_word (argument_within depth) name bytes.now) }
{
    if let Some(inner) = mark(b"{", bytes) {
        let (fields, rest) = fields(alloc, depth, inner)?;
        return Ok((Arg::Fields(name, fields), rest));
    }
    if let Some(inner) = mark(b"(", bytes) {
        if name.as_slice() == b"Some".as_slice() {
            return some(alloc, depth, inner);
        }
        return Err(Unread::Malformed);
    }
    if let Some(mid) = after(b":", bytes) {
        return ident(alloc, &name, mid);
    }
    constant(name.as_slice(), bytes)
}

/// An id, from behind a word and a colon.
fn ident<'a>(alloc: Global, name: &Text, bytes: &'a [u8]) -> Read<'a, Arg>
    ensures { Reads seen result (ident_at name.now bytes.now) }
{
    if name.as_slice() != b"id".as_slice() {
        return Err(Unread::Malformed);
    }
    id(alloc, bytes)
}

/// An argument that is one word.
fn constant<'a>(name: &[u8], bytes: &'a [u8]) -> Read<'a, Arg>
    ensures { Reads seen result (constant name.now bytes.now) }
{
    if name == b"true".as_slice() {
        Ok((Arg::Bool(true), bytes))
    } else if name == b"false".as_slice() {
        Ok((Arg::Bool(false), bytes))
    } else if name == b"None".as_slice() {
        Ok((Arg::Nothing, bytes))
    } else {
        Err(Unread::Malformed)
    }
}

/// `Some(argument)`, from behind the mark that opens it.
#[cycle(argument)]
fn some<'a>(alloc: Global, depth: usize, bytes: &'a [u8]) -> Read<'a, Arg>
    ensures { Reads seen result (some_from (argument_within depth) bytes.now) }
{
    let (inner, behind) = argument(alloc, depth, unspaced(bytes))?;
    let rest = expect(b")", behind)?;
    let inner = Boxed::new(alloc, inner)?;
    Ok((Arg::Some(inner), rest))
}

/// The fields of a struct, from behind the mark that opens them.
#[cycle(argument)]
fn fields<'a>(alloc: Global, depth: usize, bytes: &'a [u8]) -> Read<'a, Items<(Text, Arg)>>
    ensures { Reads seen result (listed (codes "}") (field_at (argument_within depth)) bytes.now) }
{
    if let Some(rest) = mark(b"}", bytes) {
        return Ok((Items::new(alloc), rest));
    }
    some_fields(alloc, depth, bytes)
}

#[tactic(auto, using(crate::proofs::Turns::members_turn, crate::proofs::Turns::members_full))]
#[cycle(argument)]
fn some_fields<'a>(alloc: Global, depth: usize, bytes: &'a [u8]) -> Read<'a, Items<(Text, Arg)>>
    ensures { Reads seen result (members (codes "}") (field_at (argument_within depth)) (length bytes.now) [] bytes.now) }
{
    let mut found = Items::new(alloc);
    let mut rest = bytes;
    for _ in 0..bytes.len() {
        let (one, behind) = field(alloc, depth, rest)?;
        found.push(one)?;
        match behind_member(b"}", behind)? {
            Separator::Close(behind) => return Ok((found, behind)),
            Separator::Comma(behind) => rest = behind,
        }
    }
    Err(Unread::Malformed)
}

/// A field of a struct: its name and what it is.
#[cycle(argument)]
fn field<'a>(alloc: Global, depth: usize, bytes: &'a [u8]) -> Read<'a, (Text, Arg)>
    ensures { Reads seen result (field_at (argument_within depth) bytes.now) }
{
    let (name, behind) = word(alloc, unspaced(bytes))?;
    let inner = expect(b":", behind)?;
    let (value, rest) = argument(alloc, depth, unspaced(inner))?;
    Ok(((name, value), rest))
}
