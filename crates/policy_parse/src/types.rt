//! Types and fields.

ghost use Rattle.std.specs.Prelude.{◌<◌, ◌-◌, ◌^◌, length};
ghost use Rattle.policy_ast.specs.declared.token.TokenKind.TheVariants.{Symbol};
ghost use Rattle.policy_ast.specs.grammar.Policies.{kinds};
ghost use Rattle.policy_ast.proofs.grammar.Reading.{listed};
ghost use Rattle.policy_ast.proofs.grammar.ReadingFields.{read_effect_field, read_field, read_name, read_type, type_over};
ghost use Rattle.policy_ast.specs.grammar.Fixed.{close_brace};
ghost use Rattle.policy_parse.specs.working.Reads.{Reads, part_read};

use crate::lists::{Member, listed};
use crate::parts::{Parsed, built};
use crate::tokens::{after_word, expect_word, name};
use crate::unparsed::Unparsed;
use policy_ast::{EffectField, Field, FieldType, Name, Part, Token, VariantNames, symbols};
use sqlite_items::Boxed;
use std::alloc::Global;

/// A type of at most this height.
#[tactic(auto, using(crate::proofs::Steps::type_step, crate::proofs::Steps::type_none))]
#[cycle(types)]
pub fn field_type<'a>(alloc: Global, depth: usize, tokens: &'a [Token]) -> Parsed<'a, FieldType>
    ensures { Reads part_read result (read_type depth (kinds tokens.now)) }
{
    if depth == 0 {
        return Err(Unparsed::NoMatch);
    }
    type_over(alloc, depth, tokens)
}

#[cycle(types)]
fn type_over<'a>(alloc: Global, depth: usize, tokens: &'a [Token]) -> Parsed<'a, FieldType>
    requires { 0 < depth }
    ensures { Reads part_read result (type_over (read_type (depth - 1)) depth (kinds tokens.now)) }
{
    if let Some(rest) = after_word("int", tokens) {
        return built(depth, FieldType::Int, 0, rest);
    }
    if let Some(rest) = after_word("bool", tokens) {
        return built(depth, FieldType::Bool, 0, rest);
    }
    if let Some(rest) = after_word("string", tokens) {
        return built(depth, FieldType::Str, 0, rest);
    }
    if let Some(rest) = after_word("bytes", tokens) {
        return built(depth, FieldType::Raw, 0, rest);
    }
    if let Some(rest) = after_word("id", tokens) {
        return built(depth, FieldType::Ident, 0, rest);
    }
    if let Some(rest) = after_word("enum", tokens) {
        let (name, rest) = name(alloc, rest)?;
        return built(depth, FieldType::Enum(name), 0, rest);
    }
    if let Some(rest) = after_word("struct", tokens) {
        let (name, rest) = name(alloc, rest)?;
        return built(depth, FieldType::Struct(name), 0, rest);
    }
    let rest = expect_word("optional", tokens)?;
    let (inner, rest) = field_type(alloc, depth - 1, rest)?;
    let tree = Boxed::new(alloc, inner.tree)?;
    built(depth, FieldType::Optional(tree), inner.height, rest)
}

impl Member for Field {
    ghost use Rattle.policy_ast.proofs.grammar.ReadingFields.{read_field};

    ghost reads = { read_field };

    /// `name type`
    fn read<'a>(alloc: Global, limit: usize, tokens: &'a [Token]) -> Parsed<'a, Field> {
        let (name, rest) = name(alloc, tokens)?;
        let (found, rest) = field_type(alloc, limit, rest)?;
        let height = found.height;
        let field_type = found.tree;
        let tree = Field { name, field_type };
        Ok((Part { tree, height }, rest))
    }
}

impl Member for EffectField {
    ghost use Rattle.policy_ast.proofs.grammar.ReadingFields.{read_effect_field};

    ghost reads = { read_effect_field };

    /// A field, and the word `dynamic` that may stand behind it
    fn read<'a>(alloc: Global, limit: usize, tokens: &'a [Token]) -> Parsed<'a, EffectField> {
        let (found, rest) = Field::read(alloc, limit, tokens)?;
        let height = found.height;
        let field = found.tree;
        let (is_dynamic, rest) = match after_word("dynamic", rest) {
            Some(behind) => (true, behind),
            None => (false, rest),
        };
        let tree = EffectField { field, is_dynamic };
        Ok((Part { tree, height }, rest))
    }
}

impl Member for Name {
    ghost use Rattle.policy_ast.proofs.grammar.ReadingFields.{read_name};

    ghost reads = { λ limit. read_name };

    fn read<'a>(alloc: Global, _limit: usize, tokens: &'a [Token]) -> Parsed<'a, Name> {
        let (tree, rest) = name(alloc, tokens)?;
        Ok((Part { tree, height: 0 }, rest))
    }
}

/// The variants of an enum and the brace that closes them
pub fn variants<'a>(alloc: Global, tokens: &'a [Token]) -> Parsed<'a, VariantNames>
    requires { length tokens.now < 2 ^ 32 }
    ensures { Reads part_read result (listed close_brace read_name (kinds tokens.now)) }
{
    let (names, rest) = listed::<Name>(alloc, 0, symbols::CLOSE_BRACE, tokens)?;
    let height = names.height;
    let tree = VariantNames::new(names.tree);
    Ok((Part { tree, height }, rest))
}
