ghost use Rattle.std.specs.Prelude.{◌≡◌, ◌<◌, ◌≤◌, IfOk, IfSome, length};
ghost use Rattle.std.specs.List.{take_while};
ghost use Rattle.base_bytes.specs.Words.{is_word_byte};
ghost use Rattle.policy_ast.specs.TokenForms.{word_at};

use base_bytes::{NoMemory, Text, begins_with_letter, is_word};
use policy_ast::TokenKind;
use std::alloc::Global;

/// The word that bytes begin with, and how many bytes it takes.
#[tactic(auto, using(policy_ast::proofs::TokenPrefixes::no_word))]
pub fn word_at(alloc: Global, bytes: &[u8]) -> Result<Option<(TokenKind, usize)>, NoMemory>
    ensures word { IfOk result (λ o. o ≡ word_at bytes.now) }
    ensures some { IfOk result (λ o. IfSome o (λ token. 0 < token.1)) }
    ensures within { IfOk result (λ o. IfSome o (λ token. token.1 ≤ length bytes.now)) }
{
    if begins_with_letter(bytes) {
        run_at(alloc, bytes)
    } else {
        Ok(None)
    }
}

/// The same where the run that bytes begin with is read whole.
#[tactic(auto, unfolding(policy_ast::specs::TokenForms::word_at))]
fn run_at(alloc: Global, bytes: &[u8]) -> Result<Option<(TokenKind, usize)>, NoMemory>
    ensures word { IfOk result (λ o. o ≡ word_at bytes.now) }
    ensures some { IfOk result (λ o. IfSome o (λ token. 0 < token.1)) }
    ensures within { IfOk result (λ o. IfSome o (λ token. token.1 ≤ length bytes.now)) }
{
    let run = &bytes[..word_length(bytes)];
    if !is_word(run) {
        return Ok(None);
    }
    match Text::from_utf8(alloc, run)? {
        Some(text) => Ok(Some((TokenKind::Word(text), run.len()))),
        None => unreachable!(),
    }
}

fn word_length(bytes: &[u8]) -> usize
    ensures { result ≡ length (take_while is_word_byte bytes.now) }
{
    bytes
        .iter()
        .take_while(|byte| byte.is_ascii_alphanumeric() || **byte == b'_')
        .count()
}
