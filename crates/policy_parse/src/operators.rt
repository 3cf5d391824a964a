//! Operators, and the words that are used like them.

ghost use Rattle.std.specs.Prelude.{◌≡◌, option_map};
ghost use Rattle.policy_ast.specs.grammar.Fixed.{and, arithmetic_token, comparison_token, count_token, or, presence_token, unary_token};
ghost use Rattle.policy_ast.specs.grammar.Policies.{kinds};
ghost use Rattle.policy_ast.proofs.grammar.Reading.{after, operator};
ghost use Rattle.policy_ast.proofs.grammar.ReadingExpressions.{arithmetics, comparisons, counts, presences, signs};
ghost use Rattle.policy_parse.specs.working.Reads.{Reads, operator_read, token_read};

use crate::tokens::{after, after_word, expect_word};
use crate::unparsed::Unparsed;
use policy_ast::{Arithmetic, Comparison, Count, Presence, Token, Unary, symbols};

/// The tokens behind `||`, where it is the first.
pub fn after_or(tokens: &[Token]) -> Option<&[Token]>
    ensures { option_map token_read result ≡ after or (kinds tokens.now) }
{
    after(symbols::OR, tokens)
}

/// The tokens behind `&&`, where it is the first.
pub fn after_and(tokens: &[Token]) -> Option<&[Token]>
    ensures { option_map token_read result ≡ after and (kinds tokens.now) }
{
    after(symbols::AND, tokens)
}

/// The comparison that is the first token, and the tokens behind it.
pub fn comparison_operator(tokens: &[Token]) -> Option<(Comparison, &[Token])>
    ensures { option_map operator_read result ≡ operator comparison_token comparisons (kinds tokens.now) }
{
    if let Some(rest) = after(symbols::EQUAL, tokens) {
        return Some((Comparison::Equal, rest));
    }
    if let Some(rest) = after(symbols::NOT_EQUAL, tokens) {
        return Some((Comparison::NotEqual, rest));
    }
    if let Some(rest) = after(symbols::LESS, tokens) {
        return Some((Comparison::Less, rest));
    }
    if let Some(rest) = after(symbols::LESS_OR_EQUAL, tokens) {
        return Some((Comparison::LessOrEqual, rest));
    }
    if let Some(rest) = after(symbols::GREATER, tokens) {
        return Some((Comparison::Greater, rest));
    }
    if let Some(rest) = after(symbols::GREATER_OR_EQUAL, tokens) {
        return Some((Comparison::GreaterOrEqual, rest));
    }
    None
}

/// What stands behind `is`.
pub fn presence(tokens: &[Token]) -> Result<(Presence, &[Token]), Unparsed>
    ensures { Reads operator_read result (operator presence_token presences (kinds tokens.now)) }
{
    if let Some(rest) = after_word("Some", tokens) {
        return Ok((Presence::Some, rest));
    }
    let rest = expect_word("None", tokens)?;
    Ok((Presence::None, rest))
}

/// The sign before an operand.
pub fn sign(tokens: &[Token]) -> Option<(Unary, &[Token])>
    ensures { option_map operator_read result ≡ operator unary_token signs (kinds tokens.now) }
{
    if let Some(rest) = after(symbols::NOT, tokens) {
        return Some((Unary::Not, rest));
    }
    if let Some(rest) = after_word("unwrap", tokens) {
        return Some((Unary::Unwrap, rest));
    }
    if let Some(rest) = after_word("check_unwrap", tokens) {
        return Some((Unary::CheckUnwrap, rest));
    }
    None
}

/// The operation on two numbers whose word is the first token.
pub fn arithmetic_operator(tokens: &[Token]) -> Option<(Arithmetic, &[Token])>
    ensures { option_map operator_read result ≡ operator arithmetic_token arithmetics (kinds tokens.now) }
{
    if let Some(rest) = after_word("add", tokens) {
        return Some((Arithmetic::Add, rest));
    }
    if let Some(rest) = after_word("sub", tokens) {
        return Some((Arithmetic::Sub, rest));
    }
    if let Some(rest) = after_word("saturating_add", tokens) {
        return Some((Arithmetic::SaturatingAdd, rest));
    }
    if let Some(rest) = after_word("saturating_sub", tokens) {
        return Some((Arithmetic::SaturatingSub, rest));
    }
    None
}

/// The count whose word is the first token.
pub fn count_operator(tokens: &[Token]) -> Option<(Count, &[Token])>
    ensures { option_map operator_read result ≡ operator count_token counts (kinds tokens.now) }
{
    if let Some(rest) = after_word("at_least", tokens) {
        return Some((Count::AtLeast, rest));
    }
    if let Some(rest) = after_word("at_most", tokens) {
        return Some((Count::AtMost, rest));
    }
    if let Some(rest) = after_word("exactly", tokens) {
        return Some((Count::Exactly, rest));
    }
    if let Some(rest) = after_word("count_up_to", tokens) {
        return Some((Count::CountUpTo, rest));
    }
    None
}
