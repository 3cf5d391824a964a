//! Texts between quotation marks.

ghost use Rattle.std.specs.Prelude.{◌≡◌, false, true};
ghost use Rattle.script.specs.Tokens.{escaped};
ghost use Rattle.script.specs.working.QuotedSteps.{IsStep};
ghost use Rattle.script.specs.working.Readers.{Reads, seen};
ghost use Rattle.script.specs.working.ReadingTokens.{quoted_at, text_from};

use base_bytes::{Bytes, Text, Unread};
use std::alloc::Global;

/// The text up to its closing mark, from behind the opening one, and the bytes behind it.
#[tactic(auto, using(crate::proofs::NameTexts::utf8_passes, crate::proofs::NameTexts::none_utf8))]
pub fn quoted<'a>(alloc: Global, bytes: &'a [u8]) -> Result<(Text, &'a [u8]), Unread>
    ensures { Reads seen result (quoted_at bytes.now) }
{
    let (text, rest) = text_from(alloc, bytes)?;
    match Text::from_utf8(alloc, text.as_slice())? {
        Some(text) => Ok((text, rest)),
        None => Err(Unread::Malformed),
    }
}

/// The bytes of the text.
fn text_from<'a>(alloc: Global, bytes: &'a [u8]) -> Result<(Bytes, &'a [u8]), Unread>
    ensures { Reads seen result (text_from false bytes.now) }
{
    let mut text = Bytes::new(alloc);
    let mut rest = bytes;
    while !rest.is_empty() {
        match step_at(rest) {
            Step::Closes(behind) => return Ok((text, behind)),
            Step::Breaks => return Err(Unread::Malformed),
            Step::Means(byte, behind) => {
                text.push(alloc, byte)?;
                rest = behind;
            }
        }
    }
    Err(Unread::Malformed)
}

/// What stands between quotation marks, and the bytes behind it.
enum Step<'a> {
    /// The closing mark.
    Closes(&'a [u8]),
    /// What can't stand there.
    Breaks,
    /// What stands for this byte of the text.
    Means(u8, &'a [u8]),
}

#[tactic(auto, unfolding(crate::specs::working::ReadingTokens::text_from))]
fn step_at(bytes: &[u8]) -> Step<'_>
    ensures { IsStep false bytes.now result }
{
    match bytes {
        [] => Step::Breaks,
        [b'"', rest @ ..] => Step::Closes(rest),
        [b'\\', rest @ ..] => escape_at(rest),
        [byte, rest @ ..] => Step::Means(*byte, rest),
    }
}

/// The same behind a backslash.
#[tactic(auto, unfolding(crate::specs::working::ReadingTokens::text_from))]
fn escape_at(bytes: &[u8]) -> Step<'_>
    ensures { IsStep true bytes.now result }
{
    match bytes {
        [] => Step::Breaks,
        [byte, rest @ ..] => match escaped(*byte) {
            Some(meant) => Step::Means(meant, rest),
            None => Step::Breaks,
        },
    }
}

/// The byte that an escape stands for, by the byte behind its backslash.
fn escaped(byte: u8) -> Option<u8>
    ensures { result ≡ escaped byte }
{
    match byte {
        b'\\' | b'"' => Some(byte),
        b'n' => Some(b'\n'),
        _ => None,
    }
}
