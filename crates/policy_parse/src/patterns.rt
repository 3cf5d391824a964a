//! Lists that stand in expressions and statements: arguments, names with expressions, patterns.

ghost use Rattle.std.specs.Prelude.{false};
ghost use Rattle.policy_ast.specs.declared.token.TokenKind.TheVariants.{Symbol};
ghost use Rattle.policy_ast.specs.grammar.Expressions.{whole};
ghost use Rattle.policy_ast.specs.grammar.Fixed.{close_paren};
ghost use Rattle.policy_ast.specs.grammar.Policies.{kinds};
ghost use Rattle.policy_ast.proofs.grammar.Reading.{listed};
ghost use Rattle.policy_ast.proofs.grammar.ReadingExpressions.{bind_over, free_over, pattern_over, read_expr};
ghost use Rattle.policy_parse.specs.working.Reads.{Reads, part_read};

use crate::expressions::expression;
use crate::lists::{Separator, behind_member};
use crate::parts::{Parsed, appended, higher, nothing_yet, unboxed};
use crate::tokens::{after, expect, name};
use crate::unparsed::Unparsed;
use policy_ast::{Bind, Expr, Free, Part, Pattern, Token, symbols};
use sqlite_items::Items;
use std::alloc::Global;

/// Arguments and the parenthesis that closes them
#[tactic(auto, using(crate::proofs::Turns::listed_turn, crate::proofs::Turns::listed_full))]
#[cycle(expr)]
pub fn arguments<'a>(alloc: Global, limit: usize, tokens: &'a [Token]) -> Parsed<'a, Items<Expr>>
    ensures { Reads part_read result (listed close_paren (read_expr limit (whole false)) (kinds tokens.now)) }
{
    let mut found = nothing_yet(alloc);
    let mut rest = tokens;
    for _ in 0..tokens.len() {
        if let Some(behind) = after(symbols::CLOSE_PAREN, rest) {
            return Ok((found, behind));
        }
        let (one, behind) = expression(alloc, limit, false, rest)?;
        found = appended(found, unboxed(one))?;
        match behind_member(symbols::CLOSE_PAREN, behind)? {
            Separator::Close(behind) => return Ok((found, behind)),
            Separator::Comma(behind) => rest = behind,
        }
    }
    Err(Unparsed::NoMatch)
}

/// Names with their expressions, and the symbol that closes them
#[tactic(auto, using(crate::proofs::Turns::listed_turn, crate::proofs::Turns::listed_full))]
#[cycle(expr)]
pub fn binds<'a>(
    alloc: Global,
    limit: usize,
    close: u8,
    tokens: &'a [Token],
) -> Parsed<'a, Items<Bind<Expr>>>
    ensures { Reads part_read result (listed (Symbol close) (bind_over (read_expr limit) limit) (kinds tokens.now)) }
{
    let mut found = nothing_yet(alloc);
    let mut rest = tokens;
    for _ in 0..tokens.len() {
        if let Some(behind) = after(close, rest) {
            return Ok((found, behind));
        }
        let (one, behind) = bind(alloc, limit, rest)?;
        found = appended(found, one)?;
        match behind_member(close, behind)? {
            Separator::Close(behind) => return Ok((found, behind)),
            Separator::Comma(behind) => rest = behind,
        }
    }
    Err(Unparsed::NoMatch)
}

/// `name: expr`
#[cycle(expr)]
fn bind<'a>(alloc: Global, limit: usize, tokens: &'a [Token]) -> Parsed<'a, Bind<Expr>>
    ensures { Reads part_read result (bind_over (read_expr limit) limit (kinds tokens.now)) }
{
    let (name, rest) = name(alloc, tokens)?;
    let rest = expect(symbols::COLON, rest)?;
    let (value, rest) = expression(alloc, limit, false, rest)?;
    let height = value.height;
    let value = value.tree.into_inner();
    let tree = Bind { name, value };
    Ok((Part { tree, height }, rest))
}

/// `Fact[key: expr, ..]=>{value: expr, ..}`
#[cycle(expr)]
pub fn pattern<'a>(alloc: Global, limit: usize, tokens: &'a [Token]) -> Parsed<'a, Pattern<Expr>>
    ensures { Reads part_read result (pattern_over (read_expr limit) limit (kinds tokens.now)) }
{
    let (fact, rest) = name(alloc, tokens)?;
    let rest = expect(symbols::OPEN_BRACKET, rest)?;
    let (keys, rest) = frees(alloc, limit, symbols::CLOSE_BRACKET, rest)?;
    let Some(behind) = after(symbols::ARROW, rest) else {
        let tree = Pattern {
            fact,
            keys: keys.tree,
            values: None,
        };
        let height = keys.height;
        return Ok((Part { tree, height }, rest));
    };
    let rest = expect(symbols::OPEN_BRACE, behind)?;
    let (values, rest) = frees(alloc, limit, symbols::CLOSE_BRACE, rest)?;
    let tree = Pattern {
        fact,
        keys: keys.tree,
        values: Some(values.tree),
    };
    let height = higher(keys.height, values.height);
    Ok((Part { tree, height }, rest))
}

/// Names with expressions or `?`, and the symbol that closes them
#[tactic(auto, using(crate::proofs::Turns::listed_turn, crate::proofs::Turns::listed_full))]
#[cycle(expr)]
fn frees<'a>(
    alloc: Global,
    limit: usize,
    close: u8,
    tokens: &'a [Token],
) -> Parsed<'a, Items<Free<Expr>>>
    ensures { Reads part_read result (listed (Symbol close) (free_over (read_expr limit) limit) (kinds tokens.now)) }
{
    let mut found = nothing_yet(alloc);
    let mut rest = tokens;
    for _ in 0..tokens.len() {
        if let Some(behind) = after(close, rest) {
            return Ok((found, behind));
        }
        let (one, behind) = free(alloc, limit, rest)?;
        found = appended(found, one)?;
        match behind_member(close, behind)? {
            Separator::Close(behind) => return Ok((found, behind)),
            Separator::Comma(behind) => rest = behind,
        }
    }
    Err(Unparsed::NoMatch)
}

/// `name: expr` or `name: ?`
#[cycle(expr)]
fn free<'a>(alloc: Global, limit: usize, tokens: &'a [Token]) -> Parsed<'a, Free<Expr>>
    ensures { Reads part_read result (free_over (read_expr limit) limit (kinds tokens.now)) }
{
    let (name, rest) = name(alloc, tokens)?;
    let rest = expect(symbols::COLON, rest)?;
    if let Some(rest) = after(symbols::QUESTION_MARK, rest) {
        let tree = Free { name, value: None };
        return Ok((Part { tree, height: 0 }, rest));
    }
    let (value, rest) = expression(alloc, limit, false, rest)?;
    let height = value.height;
    let value = Some(value.tree.into_inner());
    let tree = Free { name, value };
    Ok((Part { tree, height }, rest))
}
