//! What stands behind the first part of a line, up to the line's end.

ghost use Rattle.std.specs.Prelude.{◌≡◌, ◌==◌, length, MatchResult};
ghost use Rattle.script.specs.working.Readers.{Reads, unspaced};
ghost use Rattle.script.specs.working.ReadingLines.{hex_alone, name_and_call, name_and_number, one_name, two_names};

use crate::arguments::arguments;
use crate::hex_bytes::hex_part;
use crate::marks::expect;
use crate::names::{replica, word};
use crate::numbers::message_number;
use crate::runs::unspaced;
use base_bytes::{Arg, Bytes, Text, Unread};
use sqlite_items::Items;
use std::alloc::Global;

/// Whether nothing but spaces is left.
pub fn is_end(bytes: &[u8]) -> bool
    ensures { result ≡ (length (unspaced bytes.now) == 0) }
{
    unspaced(bytes).is_empty()
}

/// `A`
#[tactic(auto, unfolding(crate::specs::working::ReadingLines::one_name))]
pub fn one_name(alloc: Global, bytes: &[u8]) -> Result<Text, Unread>
    ensures { Reads (λ name. name) result (one_name bytes.now) }
{
    let (name, rest) = replica(alloc, bytes)?;
    if !is_end(rest) {
        return Err(Unread::Malformed);
    }
    Ok(name)
}

/// `A B`
#[tactic(auto, unfolding(crate::specs::working::ReadingLines::two_names))]
pub fn two_names(alloc: Global, bytes: &[u8]) -> Result<(Text, Text), Unread>
    ensures { Reads (λ names. names) result (two_names bytes.now) }
{
    let (name, behind) = replica(alloc, bytes)?;
    let (other, rest) = replica(alloc, behind)?;
    if !is_end(rest) {
        return Err(Unread::Malformed);
    }
    Ok((name, other))
}

/// `A n`
#[tactic(auto, unfolding(crate::specs::working::ReadingLines::name_and_number))]
pub fn name_and_number(alloc: Global, bytes: &[u8]) -> Result<(Text, u32), Unread>
    ensures { Reads (λ found. found) result (name_and_number bytes.now) }
{
    let (name, behind) = replica(alloc, bytes)?;
    let (number, rest) = message_number(behind)?;
    if !is_end(rest) {
        return Err(Unread::Malformed);
    }
    Ok((name, number))
}

/// `A f(args)`
#[tactic(auto, unfolding(crate::specs::working::ReadingLines::name_and_call))]
pub fn name_and_call(alloc: Global, bytes: &[u8]) -> Result<(Text, Text, Items<Arg>), Unread>
    ensures { Reads (λ call. call) result (name_and_call bytes.now) }
{
    let (name, behind) = replica(alloc, bytes)?;
    let (action, behind) = word(alloc, unspaced(behind))?;
    let inner = expect(b"(", behind)?;
    let (arguments, rest) = arguments(alloc, inner)?;
    if !is_end(rest) {
        return Err(Unread::Malformed);
    }
    Ok((name, action, arguments))
}

/// `HEX`
#[tactic(auto, unfolding(crate::specs::working::ReadingLines::hex_alone))]
pub fn hex_alone(alloc: Global, bytes: &[u8]) -> Result<Bytes, Unread>
    ensures { Reads (λ bytes. bytes) result (hex_alone bytes.now) }
{
    let (message, rest) = hex_part(alloc, bytes)?;
    if !is_end(rest) {
        return Err(Unread::Malformed);
    }
    Ok(message)
}
