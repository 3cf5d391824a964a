ghost use Rattle.std.specs.Prelude.{◌≡◌, ◌^◌, ◌<◌, ◌≤◌, All, IfOk, IfSome, length, map};
ghost use Rattle.std.specs.Str.{IsUtf8};
ghost use Rattle.policy_ast.specs.DocumentTokens.{IsTokenOf, blocks_tokens, document_tokens, document_version, tokens_behind, tokens_in, version_tokens};
ghost use Rattle.policy_ast.specs.Fences.{blocks_from};
ghost use Rattle.policy_ast.specs.FrontMatter.{front_matter};
ghost use Rattle.policy_ast.specs.Lines.{document_lines};
ghost use Rattle.policy_lex.specs.Answers.{IsAnswer, listed};
ghost use Rattle.policy_lex.specs.working.BlockViews.{AreBlocks, plain};
ghost use Rattle.policy_lex.specs.working.LineViews.{lines_at};

use crate::LexFault;
use crate::block_tokens::with_block_tokens;
use crate::blocks::{Block, FoundBlocks, policy_blocks};
use crate::front_matter::{FrontMatter, front_matter};
use crate::lines::line_number;
use policy_ast::{Token, Version};
use std::alloc::Global;

/// The tokens of a document's policy blocks, in order, or the first fault, in the order of the variants of `LexFault`.
pub fn tokens(alloc: Global, document: &[u8]) -> Result<Vec<Token>, LexFault>
    requires { length document.now < 2 ^ 32 }
    ensures answer { IsAnswer (document_tokens document.now) (listed result) }
    ensures few { IfOk result (λ tokens. length tokens.items ≤ length document.now) }
    ensures slices { IfOk result (λ tokens. IfSome (document_version document.now) (λ version. All (IsTokenOf version document.now) tokens.items)) }
{
    match std::str::from_utf8(document) {
        Ok(_) => text_tokens(alloc, document),
        Err(error) => {
            let line = line_number(document, error.valid_up_to());
            Err(LexFault::NotUtf8(line))
        }
    }
}

/// The same of a document that is UTF-8.
fn text_tokens(alloc: Global, document: &[u8]) -> Result<Vec<Token>, LexFault>
    requires short { length document.now < 2 ^ 32 }
    requires utf8 { IsUtf8 document.now }
    ensures answer { IsAnswer (tokens_behind document.now (front_matter (document_lines document.now))) (listed result) }
    ensures few { IfOk result (λ tokens. length tokens.items ≤ length document.now) }
    ensures slices { IfOk result (λ tokens. IfSome (document_version document.now) (λ version. All (IsTokenOf version document.now) tokens.items)) }
{
    match front_matter(document) {
        Some(front) => front_tokens(alloc, document, front),
        None => Err(LexFault::NoFrontMatter),
    }
}

/// The tokens behind a front matter, by the version that it names.
fn front_tokens(alloc: Global, document: &[u8], front: FrontMatter) -> Result<Vec<Token>, LexFault>
    requires short { length document.now < 2 ^ 32 }
    requires utf8 { IsUtf8 document.now }
    requires key { front.key < length document.now }
    requires within { front.behind ≤ length document.now }
    ensures answer { IsAnswer (version_tokens document.now front.key front.version (lines_at document.now front.behind)) (listed result) }
    ensures few { IfOk result (λ tokens. length tokens.items ≤ length document.now) }
    ensures slices { IfOk result (λ tokens. IfSome front.version (λ version. All (IsTokenOf version document.now) tokens.items)) }
{
    match front.version {
        Some(version) => tokens_from(alloc, version, document, front.behind),
        None => Err(LexFault::WrongVersion(line_number(document, front.key))),
    }
}

/// The tokens of the policy blocks from a place on.
fn tokens_from(
    alloc: Global,
    version: Version,
    document: &[u8],
    place: usize,
) -> Result<Vec<Token>, LexFault>
    requires short { length document.now < 2 ^ 32 }
    requires utf8 { IsUtf8 document.now }
    requires within { place ≤ length document.now }
    ensures answer { IsAnswer (tokens_in version document.now (blocks_from 0 document.now (lines_at document.now place))) (listed result) }
    ensures few { IfOk result (λ tokens. length tokens.items ≤ length document.now) }
    ensures slices { IfOk result (λ tokens. All (IsTokenOf version document.now) tokens.items) }
{
    let FoundBlocks { blocks, unclosed } = policy_blocks(alloc, document, place)?;
    match unclosed {
        Some(line) => Err(LexFault::OpenBlock(line)),
        None => blocks_tokens(alloc, version, document, blocks.as_slice()),
    }
}

/// The tokens of blocks, one after another.
fn blocks_tokens(
    alloc: Global,
    version: Version,
    document: &[u8],
    blocks: &[Block],
) -> Result<Vec<Token>, LexFault>
    requires short { length document.now < 2 ^ 32 }
    requires utf8 { IsUtf8 document.now }
    requires blocks { AreBlocks document.now 0 blocks.now (length document.now) }
    ensures answer { IsAnswer (blocks_tokens version document.now (map plain blocks.now)) (listed result) }
    ensures few { IfOk result (λ tokens. length tokens.items ≤ length document.now) }
    ensures slices { IfOk result (λ tokens. All (IsTokenOf version document.now) tokens.items) }
{
    let mut tokens = Vec::new(alloc);
    for block in blocks {
        tokens = with_block_tokens(alloc, version, document, *block, tokens)?;
    }
    Ok(tokens)
}
