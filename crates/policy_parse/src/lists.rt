//! Lists up to the symbol that closes them: with commas between their members, or without.

ghost use Rattle.std.specs.Prelude.{ℕ};
ghost use Rattle.policy_ast.specs.declared.token.TokenKind.TheVariants.{Symbol};
ghost use Rattle.policy_ast.specs.grammar.Policies.{kinds};
ghost use Rattle.policy_ast.proofs.grammar.Reading.{Reader, listed, many};
ghost use Rattle.policy_parse.specs.working.Reads.{Reads, part_read};
ghost use Rattle.policy_parse.specs.working.Separators.{StandsBehind};

use crate::parts::{Parsed, appended, nothing_yet};
use crate::tokens::{after, expect};
use crate::unparsed::Unparsed;
use policy_ast::{Token, symbols};
use sqlite_items::Items;
use std::alloc::Global;

/// What stands behind a member of a list, and the tokens behind that.
pub enum Separator<'a> {
    Close(&'a [Token]),
    Comma(&'a [Token]),
}

/// The symbol that closes a list, or the comma behind one of its members.
pub fn behind_member<'a>(close: u8, tokens: &'a [Token]) -> Result<Separator<'a>, Unparsed>
    ensures { StandsBehind (Symbol close) (kinds tokens.now) result }
{
    if let Some(rest) = after(close, tokens) {
        return Ok(Separator::Close(rest));
    }
    let rest = expect(symbols::COMMA, tokens)?;
    Ok(Separator::Comma(rest))
}

/// What lists are of whose members don't lead back to the list.
pub trait Member: Drop {
    ghost reads: { ℕ → Reader Self };

    /// One member, whose height is at most `limit`.
    fn read<'a>(alloc: Global, limit: usize, tokens: &'a [Token]) -> Parsed<'a, Self>
        ensures { Reads part_read result (reads limit (kinds tokens.now)) };
}

/// Members with commas between them, and the symbol that closes the list
#[tactic(auto, using(crate::proofs::Turns::listed_turn, crate::proofs::Turns::listed_full))]
pub fn listed<'a, M: Member>(
    alloc: Global,
    limit: usize,
    close: u8,
    tokens: &'a [Token],
) -> Parsed<'a, Items<M>>
    ensures { Reads part_read result (listed (Symbol close) (M.reads limit) (kinds tokens.now)) }
{
    let mut found = nothing_yet(alloc);
    let mut rest = tokens;
    for _ in 0..tokens.len() {
        if let Some(behind) = after(close, rest) {
            return Ok((found, behind));
        }
        let (one, behind) = M::read(alloc, limit, rest)?;
        found = appended(found, one)?;
        match behind_member(close, behind)? {
            Separator::Close(behind) => return Ok((found, behind)),
            Separator::Comma(behind) => rest = behind,
        }
    }
    Err(Unparsed::NoMatch)
}

/// Members one behind the other, and the symbol that closes the list
#[tactic(auto, using(crate::proofs::Turns::many_turn, crate::proofs::Turns::many_goes_on, crate::proofs::Turns::many_full))]
pub fn many<'a, M: Member>(
    alloc: Global,
    limit: usize,
    close: u8,
    tokens: &'a [Token],
) -> Parsed<'a, Items<M>>
    ensures { Reads part_read result (many (Symbol close) (M.reads limit) (kinds tokens.now)) }
{
    let mut found = nothing_yet(alloc);
    let mut rest = tokens;
    for _ in 0..tokens.len() {
        if let Some(behind) = after(close, rest) {
            return Ok((found, behind));
        }
        let (one, behind) = M::read(alloc, limit, rest)?;
        found = appended(found, one)?;
        rest = behind;
    }
    Err(Unparsed::NoMatch)
}
