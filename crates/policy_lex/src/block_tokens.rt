ghost use Rattle.std.specs.Prelude.{◌≡◌, [], ◌∷◌, ◌++◌, ◌^◌, ◌<◌, ◌≤◌, All, IfOk, IfSome, OnOk, length};
ghost use Rattle.std.specs.Str.{IsUtf8};
ghost use Rattle.policy_ast.specs.DocumentTokens.{IsTokenOf, block_tokens, with_tokens};
ghost use Rattle.policy_lex.specs.Answers.{IsAnswer, listed};
ghost use Rattle.policy_lex.specs.working.BlockViews.{IsBlock, plain};
ghost use Rattle.policy_ast.specs.TokenForms.{trivia_at, token_at};
ghost use Rattle.policy_lex.specs.working.Pieces.{piece_of};
ghost use Rattle.policy_lex.specs.working.QuotedTexts.{HoldsText};

use crate::LexFault;
use crate::blocks::Block;
use crate::lines::line_feeds;
use crate::token::token_at;
use crate::trivia::trivia_at;
use base_bytes::NoMemory;
use policy_ast::{Token, TokenKind, Version};
use std::alloc::Global;

/// The tokens so far, and behind them those of a block.
pub fn with_block_tokens(
    alloc: Global,
    version: Version,
    document: &[u8],
    block: Block,
    tokens: Vec<Token>,
) -> Result<Vec<Token>, LexFault>
    requires short { length document.now < 2 ^ 32 }
    requires utf8 { IsUtf8 document.now }
    requires block { IsBlock document.now (length tokens.items) block }
    requires slices { All (IsTokenOf version document.now) tokens.items }
    ensures answer { IsAnswer (with_tokens tokens.items (block_tokens version document.now (plain block))) (listed result) }
    ensures few { IfOk result (λ all. length all.items ≤ block.to) }
    ensures slices { IfOk result (λ all. All (IsTokenOf version document.now) all.items) }
{
    let mut tokens = tokens;
    let mut place = block.from;
    let mut line = block.line;
    while place < block.to {
        let rest = &document[place..block.to];
        let Some(Piece { token, size }) = piece_at(alloc, version, rest)? else {
            return Err(LexFault::BadToken(line as u32));
        };
        if let Some(kind) = token {
            let line = line as u32;
            let end = place + size;
            push_token(
                &mut tokens,
                Token {
                    kind,
                    line,
                    start: place,
                    end,
                },
            )?;
        }
        line += line_feeds(&rest[..size]);
        place += size;
    }
    Ok(tokens)
}

fn push_token(tokens: &mut Vec<Token>, token: Token) -> Result<(), NoMemory>
    ensures { OnOk result (tokens.new.items ≡ tokens.old.items ++ token ∷ []) }
{
    tokens.push(token)?;
    Ok(())
}

/// A token, or none where trivia stand; and how many bytes it takes.
#[derive(Drop)]
struct Piece {
    token: Option<TokenKind>,
    size: usize,
}

/// The trivia that bytes begin with, or the token.
fn piece_at(alloc: Global, version: Version, bytes: &[u8]) -> Result<Option<Piece>, NoMemory>
    requires some { 0 < length bytes.now }
    requires text { HoldsText bytes.now }
    ensures piece { IfOk result (λ o. o ≡ piece_of (trivia_at bytes.now) (token_at version bytes.now)) }
    ensures some { IfOk result (λ o. IfSome o (λ piece. 0 < piece.size)) }
    ensures within { IfOk result (λ o. IfSome o (λ piece. piece.size ≤ length bytes.now)) }
{
    if let Some(size) = trivia_at(bytes) {
        return Ok(Some(Piece { token: None, size }));
    }
    match token_at(alloc, version, bytes)? {
        Some((kind, size)) => Ok(Some(Piece {
            token: Some(kind),
            size,
        })),
        None => Ok(None),
    }
}
