//! Lines by their first part.

ghost use Rattle.std.specs.Prelude.{◌≡◌};
ghost use Rattle.std.specs.Str.{is_utf8};
ghost use Rattle.script.specs.working.Readers.{Reads};
ghost use Rattle.script.specs.working.ReadingLines.{form_of, line_behind, line_of, message_line, showing_line, spoken};

use crate::line::Line;
use crate::line_parts::{hex_alone, is_end, name_and_call, name_and_number, one_name, two_names};
use crate::marks::after;
use crate::runs::{part_run, unspaced};
use base_bytes::Unread;
use std::alloc::Global;

/// The line that bytes are.
#[tactic(auto, unfolding(crate::specs::working::ReadingLines::line_of))]
pub fn line_of(alloc: Global, bytes: &[u8]) -> Result<Line, Unread>
    ensures { Reads (λ line. line) result (line_of bytes.now) }
{
    if !is_text(bytes) {
        return Err(Unread::Malformed);
    }
    form_of(alloc, bytes)
}

/// Whether bytes are UTF-8.
#[tactic(auto, using(crate::proofs::NameTexts::utf8_passes, crate::proofs::NameTexts::none_utf8))]
fn is_text(bytes: &[u8]) -> bool
    ensures { result ≡ is_utf8 bytes.now }
{
    std::str::from_utf8(bytes).is_ok()
}

fn form_of(alloc: Global, bytes: &[u8]) -> Result<Line, Unread>
    ensures { Reads (λ line. line) result (form_of bytes.now) }
{
    if is_end(bytes) || after(b"#", bytes).is_some() {
        return Ok(Line::Blank);
    }
    let (verb, rest) = part_run(unspaced(bytes));
    line_behind(alloc, verb, rest)
}

/// A line from behind its verb.
fn line_behind(alloc: Global, verb: &[u8], rest: &[u8]) -> Result<Line, Unread>
    ensures { Reads (λ line. line) result (line_behind verb.now rest.now) }
{
    if verb == b"replica".as_slice() {
        Ok(Line::Replica(one_name(alloc, rest)?))
    } else if verb == b"init".as_slice() {
        let (name, action, arguments) = name_and_call(alloc, rest)?;
        Ok(Line::Init(name, action, arguments))
    } else if verb == b"join".as_slice() {
        let (name, other) = two_names(alloc, rest)?;
        Ok(Line::Join(name, other))
    } else if verb == b"act".as_slice() {
        let (name, action, arguments) = name_and_call(alloc, rest)?;
        Ok(Line::Act(name, action, arguments))
    } else if verb == b"sync".as_slice() {
        let (name, other) = two_names(alloc, rest)?;
        Ok(Line::Sync(name, other))
    } else {
        message_line(alloc, verb, rest)
    }
}

/// A line that makes or takes a message, or another of one name.
fn message_line(alloc: Global, verb: &[u8], rest: &[u8]) -> Result<Line, Unread>
    ensures { Reads (λ line. line) result (message_line verb.now rest.now) }
{
    if verb == b"ask".as_slice() {
        Ok(Line::Ask(one_name(alloc, rest)?))
    } else if verb == b"next".as_slice() {
        let (name, number) = name_and_number(alloc, rest)?;
        Ok(Line::Next(name, number))
    } else if verb == b"answer".as_slice() {
        let (name, number) = name_and_number(alloc, rest)?;
        Ok(Line::Answer(name, number))
    } else if verb == b"take".as_slice() {
        let (name, number) = name_and_number(alloc, rest)?;
        Ok(Line::Take(name, number))
    } else if verb == b"inject".as_slice() {
        Ok(Line::Inject(hex_alone(alloc, rest)?))
    } else {
        showing_line(alloc, verb, rest)
    }
}

/// A line that restarts or shows a replica.
fn showing_line(alloc: Global, verb: &[u8], rest: &[u8]) -> Result<Line, Unread>
    ensures { Reads (λ line. line) result (showing_line verb.now rest.now) }
{
    if verb == b"restart".as_slice() {
        Ok(Line::Restart(one_name(alloc, rest)?))
    } else if verb == b"facts".as_slice() {
        Ok(Line::Facts(one_name(alloc, rest)?))
    } else if verb == b"effects".as_slice() {
        Ok(Line::Effects(one_name(alloc, rest)?))
    } else if verb == b"graph".as_slice() {
        Ok(Line::Graph(one_name(alloc, rest)?))
    } else {
        Err(Unread::Malformed)
    }
}
