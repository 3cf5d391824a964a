//! What an arm of a `match` takes.

ghost use Rattle.std.specs.Prelude.{length};
ghost use Rattle.policy_ast.specs.grammar.Fixed.{bar};
ghost use Rattle.policy_ast.specs.grammar.Parts.{part};
ghost use Rattle.policy_ast.specs.grammar.Policies.{kinds};
ghost use Rattle.policy_ast.proofs.grammar.Reading.{chain, list_added};
ghost use Rattle.policy_ast.proofs.grammar.ReadingFields.{read_pattern_literal};
ghost use Rattle.policy_ast.proofs.grammar.ReadingStatements.{read_alternatives, read_arm_pattern};
ghost use Rattle.policy_parse.specs.working.Reads.{Reads, leaf_read};

use crate::literals::pattern_literal;
use crate::tokens::after;
use crate::unparsed::Unparsed;
use policy_ast::{ArmPattern, PatternLiteral, Token, symbols};
use sqlite_items::Items;
use std::alloc::Global;

/// `_`, or one of several literals
#[tactic(auto, unfolding(policy_ast::proofs::grammar::ReadingStatements::read_arm_pattern))]
pub fn arm_pattern<'a>(
    alloc: Global,
    tokens: &'a [Token],
) -> Result<(ArmPattern, &'a [Token]), Unparsed>
    ensures { Reads leaf_read result (read_arm_pattern (kinds tokens.now)) }
{
    if let Some(rest) = after(symbols::UNDERSCORE, tokens) {
        return Ok((ArmPattern::Any, rest));
    }
    let (found, rest) = alternatives(alloc, tokens)?;
    Ok((ArmPattern::Literals(found), rest))
}

/// Literals with `|` between each two
fn alternatives<'a>(
    alloc: Global,
    tokens: &'a [Token],
) -> Result<(Items<PatternLiteral>, &'a [Token]), Unparsed>
    ensures { Reads leaf_read result (read_alternatives (kinds tokens.now)) }
{
    let (first, rest) = pattern_literal(alloc, tokens)?;
    let mut found = Items::new(alloc);
    found.push(first)?;
    more_alternatives(alloc, found, rest)
}

#[tactic(auto, using(crate::proofs::Turns::chain_turn, crate::proofs::Turns::chain_full))]
fn more_alternatives<'a>(
    alloc: Global,
    first: Items<PatternLiteral>,
    tokens: &'a [Token],
) -> Result<(Items<PatternLiteral>, &'a [Token]), Unparsed>
    ensures { Reads leaf_read result (chain bar list_added read_pattern_literal (length tokens.now) (part first 0) (kinds tokens.now)) }
{
    let mut found = first;
    let mut rest = tokens;
    let mut turns = tokens.len();
    while let Some(behind) = after(symbols::BAR, rest) {
        if turns == 0 {
            return Err(Unparsed::NoMatch);
        }
        turns -= 1;
        let (next, behind) = pattern_literal(alloc, behind)?;
        found.push(next)?;
        rest = behind;
    }
    Ok((found, rest))
}
