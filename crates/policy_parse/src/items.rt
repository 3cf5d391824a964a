//! Items. Each function gives what the tokens begin with and the tokens behind it, and refuses where they don't
//! begin so.

ghost use Rattle.std.specs.Prelude.{◌<◌, ◌^◌, length};
ghost use Rattle.policy_ast.specs.grammar.Policies.{kinds};
ghost use Rattle.policy_ast.proofs.grammar.ReadingItems.{read_action, read_command, read_effect, read_enum, read_fact, read_finish_function, read_function, read_item_tree, read_let_item, read_parameters, read_struct};
ghost use Rattle.policy_parse.specs.working.Reads.{Reads, part_read};

use crate::finish::finish_block;
use crate::lists::{listed, many};
use crate::literals::literal;
use crate::parts::{Parsed, built, higher};
use crate::statements::block;
use crate::tokens::{after_word, expect, expect_word, name};
use crate::types::{field_type, variants};
use policy_ast::{Field, Item, Token, symbols};
use sqlite_items::Items;
use std::alloc::Global;

/// An item, by its first word
#[tactic(auto, unfolding(policy_ast::proofs::grammar::ReadingItems::read_item_tree))]
pub fn item<'a>(alloc: Global, depth: usize, tokens: &'a [Token]) -> Parsed<'a, Item>
    requires { length tokens.now < 2 ^ 32 }
    ensures { Reads part_read result (read_item_tree depth (kinds tokens.now)) }
{
    if let Some(rest) = after_word("use", tokens) {
        let (name, rest) = name(alloc, rest)?;
        return built(depth, Item::Use(name), 0, rest);
    }
    if let Some(rest) = after_word("let", tokens) {
        return let_item(alloc, depth, rest);
    }
    if let Some(rest) = after_word("enum", tokens) {
        return enumeration(alloc, depth, rest);
    }
    if let Some(rest) = after_word("struct", tokens) {
        return structure(alloc, depth, rest);
    }
    if let Some(rest) = after_word("effect", tokens) {
        return effect(alloc, depth, rest);
    }
    if let Some(rest) = after_word("fact", tokens) {
        return fact(alloc, depth, false, rest);
    }
    if let Some(rest) = after_word("immutable", tokens) {
        let rest = expect_word("fact", rest)?;
        return fact(alloc, depth, true, rest);
    }
    if let Some(rest) = after_word("command", tokens) {
        return command(alloc, depth, rest);
    }
    if let Some(rest) = after_word("function", tokens) {
        return function(alloc, depth, rest);
    }
    if let Some(rest) = after_word("finish", tokens) {
        let rest = expect_word("function", rest)?;
        return finish_function(alloc, depth, rest);
    }
    let rest = expect_word("action", tokens)?;
    action(alloc, depth, rest)
}

/// `name = literal`
fn let_item<'a>(alloc: Global, depth: usize, tokens: &'a [Token]) -> Parsed<'a, Item>
    ensures { Reads part_read result (read_let_item depth (kinds tokens.now)) }
{
    let (name, rest) = name(alloc, tokens)?;
    let rest = expect(symbols::EQUALS, rest)?;
    let (found, rest) = literal(alloc, rest)?;
    built(depth, Item::Let(name, found), 0, rest)
}

/// `Name { Variant, .. }`
fn enumeration<'a>(alloc: Global, depth: usize, tokens: &'a [Token]) -> Parsed<'a, Item>
    requires { length tokens.now < 2 ^ 32 }
    ensures { Reads part_read result (read_enum depth (kinds tokens.now)) }
{
    let (name, rest) = name(alloc, tokens)?;
    let rest = expect(symbols::OPEN_BRACE, rest)?;
    let (found, rest) = variants(alloc, rest)?;
    built(depth, Item::Enum(name, found.tree), found.height, rest)
}

/// `Name { field, .. }`
fn structure<'a>(alloc: Global, depth: usize, tokens: &'a [Token]) -> Parsed<'a, Item>
    ensures { Reads part_read result (read_struct depth (kinds tokens.now)) }
{
    let (name, rest) = name(alloc, tokens)?;
    let rest = expect(symbols::OPEN_BRACE, rest)?;
    let (found, rest) = listed(alloc, depth, symbols::CLOSE_BRACE, rest)?;
    built(depth, Item::Struct(name, found.tree), found.height, rest)
}

/// `Name { field, .. }` with the fields of an effect
fn effect<'a>(alloc: Global, depth: usize, tokens: &'a [Token]) -> Parsed<'a, Item>
    ensures { Reads part_read result (read_effect depth (kinds tokens.now)) }
{
    let (name, rest) = name(alloc, tokens)?;
    let rest = expect(symbols::OPEN_BRACE, rest)?;
    let (found, rest) = listed(alloc, depth, symbols::CLOSE_BRACE, rest)?;
    built(depth, Item::Effect(name, found.tree), found.height, rest)
}

/// `Name[key, ..]=>{value, ..}`
fn fact<'a>(
    alloc: Global,
    depth: usize,
    is_immutable: bool,
    tokens: &'a [Token],
) -> Parsed<'a, Item>
    ensures { Reads part_read result (read_fact depth is_immutable (kinds tokens.now)) }
{
    let (name, rest) = name(alloc, tokens)?;
    let rest = expect(symbols::OPEN_BRACKET, rest)?;
    let (keys, rest) = listed(alloc, depth, symbols::CLOSE_BRACKET, rest)?;
    let rest = expect(symbols::ARROW, rest)?;
    let rest = expect(symbols::OPEN_BRACE, rest)?;
    let (values, rest) = listed(alloc, depth, symbols::CLOSE_BRACE, rest)?;
    let height = higher(keys.height, values.height);
    let tree = Item::Fact {
        is_immutable,
        name,
        keys: keys.tree,
        values: values.tree,
    };
    built(depth, tree, height, rest)
}

/// `Name { section .. }`
fn command<'a>(alloc: Global, depth: usize, tokens: &'a [Token]) -> Parsed<'a, Item>
    ensures { Reads part_read result (read_command depth (kinds tokens.now)) }
{
    let (name, rest) = name(alloc, tokens)?;
    let rest = expect(symbols::OPEN_BRACE, rest)?;
    let (found, rest) = many(alloc, depth, symbols::CLOSE_BRACE, rest)?;
    built(depth, Item::Command(name, found.tree), found.height, rest)
}

/// `(parameter, ..)`
fn parameters<'a>(alloc: Global, depth: usize, tokens: &'a [Token]) -> Parsed<'a, Items<Field>>
    ensures { Reads part_read result (read_parameters depth (kinds tokens.now)) }
{
    let rest = expect(symbols::OPEN_PAREN, tokens)?;
    listed(alloc, depth, symbols::CLOSE_PAREN, rest)
}

/// `name(parameter, ..) type { .. }`
fn function<'a>(alloc: Global, depth: usize, tokens: &'a [Token]) -> Parsed<'a, Item>
    ensures { Reads part_read result (read_function depth (kinds tokens.now)) }
{
    let (name, rest) = name(alloc, tokens)?;
    let (given, rest) = parameters(alloc, depth, rest)?;
    let (result, rest) = field_type(alloc, depth, rest)?;
    let (body, rest) = block(alloc, depth, rest)?;
    let height = higher(given.height, higher(result.height, body.height));
    let tree = Item::Function {
        name,
        parameters: given.tree,
        result: result.tree,
        body: body.tree,
    };
    built(depth, tree, height, rest)
}

/// `name(parameter, ..) { .. }` with the statements of a finish block
fn finish_function<'a>(alloc: Global, depth: usize, tokens: &'a [Token]) -> Parsed<'a, Item>
    ensures { Reads part_read result (read_finish_function depth (kinds tokens.now)) }
{
    let (name, rest) = name(alloc, tokens)?;
    let (given, rest) = parameters(alloc, depth, rest)?;
    let (body, rest) = finish_block(alloc, depth, rest)?;
    let height = higher(given.height, body.height);
    let tree = Item::FinishFunction {
        name,
        parameters: given.tree,
        body: body.tree,
    };
    built(depth, tree, height, rest)
}

/// `name(parameter, ..) { .. }`
fn action<'a>(alloc: Global, depth: usize, tokens: &'a [Token]) -> Parsed<'a, Item>
    ensures { Reads part_read result (read_action depth (kinds tokens.now)) }
{
    let (name, rest) = name(alloc, tokens)?;
    let (given, rest) = parameters(alloc, depth, rest)?;
    let (body, rest) = block(alloc, depth, rest)?;
    let height = higher(given.height, body.height);
    let tree = Item::Action {
        name,
        parameters: given.tree,
        body: body.tree,
    };
    built(depth, tree, height, rest)
}
