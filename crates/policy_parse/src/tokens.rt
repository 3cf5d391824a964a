//! Looks at the first token.

ghost use Rattle.std.specs.Prelude.{◌≡◌, option_map};
ghost use Rattle.policy_ast.specs.declared.token.TokenKind.TheVariants.{Symbol, Word};
ghost use Rattle.policy_ast.specs.grammar.Policies.{kinds};
ghost use Rattle.policy_ast.proofs.grammar.Reading.{after};
ghost use Rattle.policy_ast.proofs.grammar.ReadingFields.{read_name, read_number};
ghost use Rattle.policy_parse.specs.working.Reads.{Reads, leaf_read, token_read};

use crate::unparsed::Unparsed;
use policy_ast::{Name, Token, TokenKind, is_name};
use std::alloc::Global;

/// The tokens behind a symbol, where it is the first.
pub fn after(symbol: u8, tokens: &[Token]) -> Option<&[Token]>
    ensures { option_map token_read result ≡ after (Symbol symbol) (kinds tokens.now) }
{
    let [first, rest @ ..] = tokens else {
        return None;
    };
    match &first.kind {
        TokenKind::Symbol(other) if symbol == *other => Some(rest),
        _ => None,
    }
}

/// The tokens behind a word, where it is the first.
pub fn after_word<'a>(word: &str, tokens: &'a [Token]) -> Option<&'a [Token]>
    ensures { option_map token_read result ≡ after (Word word.now) (kinds tokens.now) }
{
    let [first, rest @ ..] = tokens else {
        return None;
    };
    match &first.kind {
        TokenKind::Word(other) if word == other.as_str() => Some(rest),
        _ => None,
    }
}

/// The tokens behind a symbol that must be the first.
pub fn expect(symbol: u8, tokens: &[Token]) -> Result<&[Token], Unparsed>
    ensures { Reads token_read result (after (Symbol symbol) (kinds tokens.now)) }
{
    after(symbol, tokens).ok_or(Unparsed::NoMatch)
}

/// The tokens behind a word that must be the first.
pub fn expect_word<'a>(word: &str, tokens: &'a [Token]) -> Result<&'a [Token], Unparsed>
    ensures { Reads token_read result (after (Word word.now) (kinds tokens.now)) }
{
    after_word(word, tokens).ok_or(Unparsed::NoMatch)
}

/// The name that is the first token, and the tokens behind it.
pub fn name<'a>(alloc: Global, tokens: &'a [Token]) -> Result<(Name, &'a [Token]), Unparsed>
    ensures { Reads leaf_read result (read_name (kinds tokens.now)) }
{
    let [first, rest @ ..] = tokens else {
        return Err(Unparsed::NoMatch);
    };
    match &first.kind {
        TokenKind::Word(text) if is_name(text.as_slice()) => {
            let text = text.copy(alloc)?;
            match Name::new(text) {
                Some(name) => Ok((name, rest)),
                None => Err(Unparsed::NoMatch),
            }
        }
        _ => Err(Unparsed::NoMatch),
    }
}

/// The number that is the first token, and the tokens behind it.
pub fn number(tokens: &[Token]) -> Result<(i64, &[Token]), Unparsed>
    ensures { Reads leaf_read result (read_number (kinds tokens.now)) }
{
    let [first, rest @ ..] = tokens else {
        return Err(Unparsed::NoMatch);
    };
    match first.kind {
        TokenKind::Number(number) => Ok((number, rest)),
        _ => Err(Unparsed::NoMatch),
    }
}
