ghost use Rattle.std.specs.Prelude.{◌≡◌, ◌<◌, ◌≤◌, IfOk, IfSome, length};
ghost use Rattle.policy_ast.specs.TokenForms.{escaped, quoted_at, text_from};
ghost use Rattle.policy_lex.specs.working.QuotedTexts.{HoldsText, IsWithin, meaning, step_at};

use crate::prefix::behind;
use base_bytes::{Bytes, NoMemory, Text};
use policy_ast::TokenKind;
use std::alloc::Global;

/// The text in quotation marks that bytes begin with, and how many bytes it takes.
#[tactic(auto, unfolding(policy_ast::specs::TokenForms::quoted_at))]
pub fn quoted_at(alloc: Global, bytes: &[u8]) -> Result<Option<(TokenKind, usize)>, NoMemory>
    requires { HoldsText bytes.now }
    ensures text { IfOk result (λ o. o ≡ quoted_at bytes.now) }
    ensures some { IfOk result (λ o. IfSome o (λ token. 0 < token.1)) }
    ensures within { IfOk result (λ o. IfSome o (λ token. token.1 ≤ length bytes.now)) }
{
    let Some(rest) = behind(b"\"", bytes) else {
        return Ok(None);
    };
    let Some((text, size)) = text_from(alloc, rest)? else {
        return Ok(None);
    };
    match Text::from_utf8(alloc, text.as_slice())? {
        Some(text) => Ok(Some((TokenKind::Quoted(text), size + 1))),
        None => unreachable!(),
    }
}

/// The text that bytes write up to its closing mark, and how many bytes these are with the mark.
fn text_from(alloc: Global, bytes: &[u8]) -> Result<Option<(Bytes, usize)>, NoMemory>
    ensures text { IfOk result (λ o. o ≡ text_from bytes.now) }
    ensures within { IfOk result (λ o. IfSome o (λ text. text.1 ≤ length bytes.now)) }
{
    let mut text = Bytes::new(alloc);
    let mut place = 0;
    while place < bytes.len() {
        match step_at(&bytes[place..]) {
            Step::Closes => return Ok(Some((text, place + 1))),
            Step::Breaks => return Ok(None),
            Step::Means { byte, size } => {
                text.push(alloc, byte)?;
                place += size;
            }
        }
    }
    Ok(None)
}

/// What stands between quotation marks at a place.
#[derive(Clone, Copy)]
enum Step {
    /// The closing mark.
    Closes,
    /// What can't stand there.
    Breaks,
    /// So many bytes that stand for this byte of the text.
    Means { byte: u8, size: usize },
}

fn step_at(bytes: &[u8]) -> Step
    ensures step { result ≡ step_at bytes.now }
    ensures within { IsWithin result (length bytes.now) }
{
    match bytes {
        [b'\\', next, ..] => escape(*next),
        [b'"', ..] => Step::Closes,
        [b'\\' | b'\n', ..] | [] => Step::Breaks,
        [byte, ..] => Step::Means {
            byte: *byte,
            size: 1,
        },
    }
}

/// What a backslash and the byte behind it stand for.
fn escape(next: u8) -> Step
    ensures step { result ≡ meaning (escaped next) }
    ensures within { IsWithin result 2 }
{
    match next {
        b'\\' | b'"' => Step::Means {
            byte: next,
            size: 2,
        },
        b'n' => Step::Means {
            byte: b'\n',
            size: 2,
        },
        _ => Step::Breaks,
    }
}
