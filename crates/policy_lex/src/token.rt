ghost use Rattle.std.specs.Prelude.{◌≡◌, ◌<◌, ◌≤◌, IfOk, IfSome, length};
ghost use Rattle.policy_ast.specs.TokenForms.{token_at};
ghost use Rattle.policy_lex.specs.working.QuotedTexts.{HoldsText};

use crate::number::number_at;
use crate::quoted::quoted_at;
use crate::symbol::symbol_at;
use crate::word::word_at;
use base_bytes::NoMemory;
use policy_ast::{TokenKind, Version};
use std::alloc::Global;

/// The token that bytes begin with, and how many bytes it takes.
pub fn token_at(
    alloc: Global,
    version: Version,
    bytes: &[u8],
) -> Result<Option<(TokenKind, usize)>, NoMemory>
    requires some { 0 < length bytes.now }
    requires text { HoldsText bytes.now }
    ensures token { IfOk result (λ o. o ≡ token_at version bytes.now) }
    ensures some { IfOk result (λ o. IfSome o (λ token. 0 < token.1)) }
    ensures within { IfOk result (λ o. IfSome o (λ token. token.1 ≤ length bytes.now)) }
{
    if let Some(word) = word_at(alloc, bytes)? {
        return Ok(Some(word));
    }
    if let Some(number) = number_at(bytes) {
        return Ok(Some(number));
    }
    if let Some(quoted) = quoted_at(alloc, bytes)? {
        return Ok(Some(quoted));
    }
    Ok(symbol_at(version, bytes))
}
