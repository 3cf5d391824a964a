//! Sections of a command.

ghost use Rattle.std.specs.Prelude.{◌≡◌, IfOk};
ghost use Rattle.policy_ast.specs.grammar.Fixed.{close_brace};
ghost use Rattle.policy_ast.specs.grammar.Policies.{kinds};
ghost use Rattle.policy_ast.proofs.grammar.Reading.{listed, many};
ghost use Rattle.policy_ast.proofs.grammar.ReadingItems.{read_attribute, read_opening, read_sealing, read_section};
ghost use Rattle.policy_parse.specs.working.Reads.{Reads, fixed_read, leaf_read, part_read};

use crate::lists::{Member, listed};
use crate::literals::literal;
use crate::parts::{Parsed, built};
use crate::statements::block;
use crate::tokens::{after_word, expect, expect_word, name};
use crate::unparsed::Unparsed;
use policy_ast::{Attribute, Part, Section, Token, symbols};
use std::alloc::Global;

impl Member for Section {
    ghost use Rattle.policy_ast.proofs.grammar.ReadingItems.{read_section};

    ghost reads = { read_section };

    #[tactic(auto, unfolding(policy_ast::proofs::grammar::ReadingItems::read_section))]
    fn read<'a>(alloc: Global, limit: usize, tokens: &'a [Token]) -> Parsed<'a, Section> {
        if let Some(rest) = after_word("attributes", tokens) {
            let rest = expect(symbols::OPEN_BRACE, rest)?;
            let (found, rest) = listed(alloc, limit, symbols::CLOSE_BRACE, rest)?;
            return built(limit, Section::Attributes(found.tree), found.height, rest);
        }
        if let Some(rest) = after_word("fields", tokens) {
            let rest = expect(symbols::OPEN_BRACE, rest)?;
            let (found, rest) = listed(alloc, limit, symbols::CLOSE_BRACE, rest)?;
            return built(limit, Section::Fields(found.tree), found.height, rest);
        }
        if let Some(rest) = after_word("seal", tokens) {
            let rest = sealing(rest)?;
            return built(limit, Section::Seal, 0, rest);
        }
        if let Some(rest) = after_word("open", tokens) {
            let rest = opening(rest)?;
            return built(limit, Section::Open, 0, rest);
        }
        if let Some(rest) = after_word("policy", tokens) {
            let (found, rest) = block(alloc, limit, rest)?;
            return built(limit, Section::Policy(found.tree), found.height, rest);
        }
        let rest = expect_word("recall", tokens)?;
        let (found, rest) = block(alloc, limit, rest)?;
        built(limit, Section::Recall(found.tree), found.height, rest)
    }
}

/// `{ return envelope::do_seal(serialize(this)) }`
fn sealing(tokens: &[Token]) -> Result<&[Token], Unparsed>
    ensures { Reads fixed_read result (read_sealing (kinds tokens.now)) }
{
    let rest = expect(symbols::OPEN_BRACE, tokens)?;
    let rest = expect_word("return", rest)?;
    let rest = expect_word("envelope", rest)?;
    let rest = expect(symbols::PATH, rest)?;
    let rest = expect_word("do_seal", rest)?;
    let rest = expect(symbols::OPEN_PAREN, rest)?;
    let rest = expect_word("serialize", rest)?;
    let rest = expect(symbols::OPEN_PAREN, rest)?;
    let rest = expect_word("this", rest)?;
    let rest = expect(symbols::CLOSE_PAREN, rest)?;
    let rest = expect(symbols::CLOSE_PAREN, rest)?;
    expect(symbols::CLOSE_BRACE, rest)
}

/// `{ return deserialize(envelope::do_open(envelope)) }`
fn opening(tokens: &[Token]) -> Result<&[Token], Unparsed>
    ensures { Reads fixed_read result (read_opening (kinds tokens.now)) }
{
    let rest = expect(symbols::OPEN_BRACE, tokens)?;
    let rest = expect_word("return", rest)?;
    let rest = expect_word("deserialize", rest)?;
    let rest = expect(symbols::OPEN_PAREN, rest)?;
    let rest = expect_word("envelope", rest)?;
    let rest = expect(symbols::PATH, rest)?;
    let rest = expect_word("do_open", rest)?;
    let rest = expect(symbols::OPEN_PAREN, rest)?;
    let rest = expect_word("envelope", rest)?;
    let rest = expect(symbols::CLOSE_PAREN, rest)?;
    let rest = expect(symbols::CLOSE_PAREN, rest)?;
    expect(symbols::CLOSE_BRACE, rest)
}

impl Member for Attribute {
    ghost use Rattle.policy_ast.proofs.grammar.ReadingItems.{read_attribute};

    ghost reads = { λ limit. read_attribute };

    /// `name: literal`
    fn read<'a>(alloc: Global, _limit: usize, tokens: &'a [Token]) -> Parsed<'a, Attribute> {
        let (name, rest) = name(alloc, tokens)?;
        let rest = expect(symbols::COLON, rest)?;
        let (value, rest) = literal(alloc, rest)?;
        let tree = Attribute { name, value };
        Ok((Part { tree, height: 0 }, rest))
    }
}
