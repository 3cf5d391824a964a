//! Literals.

ghost use Rattle.policy_ast.specs.grammar.Parts.{part};
ghost use Rattle.policy_ast.specs.grammar.Policies.{kinds};
ghost use Rattle.policy_ast.proofs.grammar.ReadingFields.{read_constant, read_literal, read_pattern_literal, read_truth, read_variant};
ghost use Rattle.policy_parse.specs.working.Reads.{Reads, leaf_read};

use crate::tokens::{after_word, expect, expect_word, name};
use crate::unparsed::{Unparsed, or_none};
use policy_ast::{Literal, Name, PatternLiteral, Token, TokenKind, symbols};
use std::alloc::Global;

/// A literal that begins with no name.
pub fn constant<'a>(alloc: Global, tokens: &'a [Token]) -> Result<(Literal, &'a [Token]), Unparsed>
    ensures { Reads leaf_read result (read_constant (kinds tokens.now)) }
{
    let [first, rest @ ..] = tokens else {
        return Err(Unparsed::NoMatch);
    };
    match &first.kind {
        TokenKind::Number(number) => Ok((Literal::Number(*number), rest)),
        TokenKind::Quoted(text) => {
            let text = text.copy(alloc)?;
            Ok((Literal::Text(text), rest))
        }
        TokenKind::Word(_) | TokenKind::Symbol(_) => truth(tokens),
    }
}

/// `true` or `false`
fn truth(tokens: &[Token]) -> Result<(Literal, &[Token]), Unparsed>
    ensures { Reads leaf_read result (read_truth (kinds tokens.now)) }
{
    if let Some(rest) = after_word("true", tokens) {
        return Ok((Literal::True, rest));
    }
    let rest = expect_word("false", tokens)?;
    Ok((Literal::False, rest))
}

/// What follows the first name of `Enum::Variant`.
fn variant<'a>(
    alloc: Global,
    first: Name,
    tokens: &'a [Token],
) -> Result<(Literal, &'a [Token]), Unparsed>
    ensures { Reads leaf_read result (read_variant (part first 0) (kinds tokens.now)) }
{
    let rest = expect(symbols::PATH, tokens)?;
    let (second, rest) = name(alloc, rest)?;
    Ok((Literal::Variant(first, second), rest))
}

#[tactic(auto, unfolding(policy_ast::proofs::grammar::ReadingFields::read_literal))]
pub fn literal<'a>(alloc: Global, tokens: &'a [Token]) -> Result<(Literal, &'a [Token]), Unparsed>
    ensures { Reads leaf_read result (read_literal (kinds tokens.now)) }
{
    match or_none(name(alloc, tokens))? {
        Some((first, rest)) => variant(alloc, first, rest),
        None => constant(alloc, tokens),
    }
}

#[tactic(auto, unfolding(policy_ast::proofs::grammar::ReadingFields::read_pattern_literal))]
pub fn pattern_literal<'a>(
    alloc: Global,
    tokens: &'a [Token],
) -> Result<(PatternLiteral, &'a [Token]), Unparsed>
    ensures { Reads leaf_read result (read_pattern_literal (kinds tokens.now)) }
{
    if let Some(rest) = after_word("None", tokens) {
        return Ok((PatternLiteral::None, rest));
    }
    let (found, rest) = literal(alloc, tokens)?;
    Ok((PatternLiteral::Literal(found), rest))
}
