ghost use Rattle.std.specs.Prelude.{◌≡◌, ◌^◌, ◌<◌, ◌≤◌, [], ◌∷◌, ◌++◌, IfOk, IfSome, OnOk, MatchOption, length};
ghost use Rattle.policy_ast.specs.Fences.{blocks_from};
ghost use Rattle.policy_lex.specs.working.BlockViews.{AreBlocks, IsPart, blocks_of_part, from_closing, plain_blocks};
ghost use Rattle.policy_lex.specs.working.LineViews.{lines_at, seen};

use crate::fences::{backticks, is_closing, is_fence, opens_policy};
use crate::lines::{Line, line_at, line_feeds};
use base_bytes::NoMemory;
use sqlite_items::Items;
use std::alloc::Global;

/// The bytes `from..to` of a policy block, and the number of the line where they begin.
#[derive(Clone, Copy)]
pub struct Block {
    pub from: usize,
    pub to: usize,
    pub line: usize,
}

/// The policy blocks of a document, and the number of the line that opens the one in which the document ends, if there is one.
#[derive(Drop)]
pub struct FoundBlocks {
    pub blocks: Items<Block>,
    pub unclosed: Option<u32>,
}

/// The policy blocks of the lines from a place on.
pub fn policy_blocks(alloc: Global, document: &[u8], start: usize) -> Result<FoundBlocks, NoMemory>
    requires short { length document.now < 2 ^ 32 }
    requires within { start ≤ length document.now }
    ensures blocks { IfOk result (λ found. blocks_from 0 document.now (lines_at document.now start) ≡ plain_blocks found.unclosed found.blocks) }
    ensures places { IfOk result (λ found. AreBlocks document.now start found.blocks (length document.now)) }
{
    let mut blocks = Items::new(alloc);
    let mut place = start;
    let mut number = line_feeds(&document[..place]) + 1;
    while place < document.len() {
        let line = line_at(document, place);
        let next = match part_at(document, line) {
            Part::Block { from, to, next } => {
                let line = number + line_feeds(&document[place..from]);
                push_block(&mut blocks, Block { from, to, line })?;
                next
            }
            Part::Other { next } => next,
            Part::Open => {
                let unclosed = Some(number as u32);
                return Ok(FoundBlocks { blocks, unclosed });
            }
        };
        number += line_feeds(&document[place..next]);
        place = next;
    }
    Ok(FoundBlocks {
        blocks,
        unclosed: None,
    })
}

fn push_block(blocks: &mut Items<Block>, block: Block) -> Result<(), NoMemory>
    ensures { OnOk result (blocks.new ≡ blocks.old ++ block ∷ []) }
{
    blocks.push(block)?;
    Ok(())
}

/// What begins with a line: a policy block, something else, or a policy block in which the document ends.
#[derive(Clone, Copy)]
enum Part {
    Block { from: usize, to: usize, next: usize },
    Other { next: usize },
    Open,
}

fn part_at(document: &[u8], line: Line) -> Part
    requires { line.next ≤ length document.now }
    ensures blocks { blocks_from 0 document.now (seen line.entry ∷ lines_at document.now line.entry.next) ≡ blocks_of_part document.now (seen line.entry) result }
    ensures places { IsPart document.now (seen line.entry) result }
{
    if !is_fence(line.text) {
        return Part::Other { next: line.next };
    }
    let is_policy = opens_policy(line.text);
    match closing_line(document, line.next, backticks(line.text)) {
        Some(closing) if is_policy => Part::Block {
            from: line.next,
            to: closing.start,
            next: closing.next,
        },
        Some(closing) => Part::Other { next: closing.next },
        None if is_policy => Part::Open,
        None => Part::Other {
            next: document.len(),
        },
    }
}

/// The first line from a place on that closes a block that so many backticks opened.
fn closing_line(document: &[u8], start: usize, count: usize) -> Option<Line<'_>>
    requires { start ≤ length document.now }
    ensures line { MatchOption result (from_closing count (lines_at document.now start) ≡ []) (λ line. from_closing count (lines_at document.now start) ≡ seen line ∷ lines_at document.now line.next) }
    ensures after { IfSome result (λ line. start ≤ line.start) }
    ensures more { IfSome result (λ line. line.start < line.next) }
    ensures within { IfSome result (λ line. line.next ≤ length document.now) }
{
    let mut place = start;
    while place < document.len() {
        let line = line_at(document, place);
        if is_closing(count, line.text) {
            return Some(line);
        }
        place = line.next;
    }
    None
}
