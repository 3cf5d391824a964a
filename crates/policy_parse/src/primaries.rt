//! The expressions that begin with no sign.

ghost use Rattle.std.specs.Prelude.{◌<◌, ◌-◌, false};
ghost use Rattle.policy_ast.specs.grammar.Expressions.{whole};
ghost use Rattle.policy_ast.specs.grammar.Fixed.{close_paren};
ghost use Rattle.policy_ast.specs.grammar.Parts.{part};
ghost use Rattle.policy_ast.specs.grammar.Policies.{kinds};
ghost use Rattle.policy_ast.proofs.grammar.Reading.{before};
ghost use Rattle.policy_ast.proofs.grammar.ReadingExpressions.{arithmetic_over, count_over, keyword_over, name_over, primary_over, read_expr, two_names_over};
ghost use Rattle.policy_parse.specs.working.Reads.{Reads, part_read};

use crate::expressions::expression;
use crate::if_expressions::if_expression;
use crate::literals::constant;
use crate::operators;
use crate::parts::{Parsed, built_within, higher, node};
use crate::patterns::{arguments, binds, pattern};
use crate::tokens::{after, after_word, expect, name, number};
use crate::unparsed::or_none;
use policy_ast::{Arithmetic, Count, Expr, Literal, Name, Token, symbols};
use sqlite_items::Boxed;
use std::alloc::Global;

#[cycle(expr)]
pub fn primary<'a>(
    alloc: Global,
    depth: usize,
    is_head: bool,
    tokens: &'a [Token],
) -> Parsed<'a, Boxed<Expr>>
    requires { 0 < depth }
    ensures { Reads part_read result (primary_over (read_expr (depth - 1)) (depth - 1) is_head (kinds tokens.now)) }
{
    match or_none(name(alloc, tokens))? {
        Some((first, rest)) => named(alloc, depth, is_head, first, rest),
        None => keyword(alloc, depth, tokens),
    }
}

/// What follows a name: it is a name, a call, a variant or a struct.
#[cycle(expr)]
fn named<'a>(
    alloc: Global,
    depth: usize,
    is_head: bool,
    first: Name,
    tokens: &'a [Token],
) -> Parsed<'a, Boxed<Expr>>
    requires { 0 < depth }
    ensures { Reads part_read result (name_over (read_expr (depth - 1)) (depth - 1) is_head (part first 0) (kinds tokens.now)) }
{
    if let Some(rest) = after(symbols::PATH, tokens) {
        let (second, rest) = name(alloc, rest)?;
        return two_names(alloc, depth, first, second, rest);
    }
    if let Some(rest) = after(symbols::OPEN_PAREN, tokens) {
        let (found, rest) = arguments(alloc, depth - 1, rest)?;
        return node(
            alloc,
            depth,
            Expr::Call(first, found.tree),
            found.height,
            rest,
        );
    }
    if !is_head {
        if let Some(rest) = after(symbols::OPEN_BRACE, tokens) {
            let (found, rest) = binds(alloc, depth - 1, symbols::CLOSE_BRACE, rest)?;
            return node(
                alloc,
                depth,
                Expr::Struct(first, found.tree),
                found.height,
                rest,
            );
        }
    }
    node(alloc, depth, Expr::Name(first), 0, tokens)
}

/// What follows `Name::Name`: it is a call or a literal.
#[cycle(expr)]
fn two_names<'a>(
    alloc: Global,
    depth: usize,
    first: Name,
    second: Name,
    tokens: &'a [Token],
) -> Parsed<'a, Boxed<Expr>>
    requires { 0 < depth }
    ensures { Reads part_read result (two_names_over (read_expr (depth - 1)) (depth - 1) (part first 0) (part second 0) (kinds tokens.now)) }
{
    if let Some(rest) = after(symbols::OPEN_PAREN, tokens) {
        let (found, rest) = arguments(alloc, depth - 1, rest)?;
        let tree = Expr::ForeignCall(first, second, found.tree);
        return node(alloc, depth, tree, found.height, rest);
    }
    let literal = Literal::Variant(first, second);
    node(alloc, depth, Expr::Literal(literal), 0, tokens)
}

/// A primary that begins with no name.
#[cycle(expr)]
fn keyword<'a>(alloc: Global, depth: usize, tokens: &'a [Token]) -> Parsed<'a, Boxed<Expr>>
    requires { 0 < depth }
    ensures { Reads part_read result (keyword_over (read_expr (depth - 1)) (depth - 1) (kinds tokens.now)) }
{
    if let Some(rest) = after_word("None", tokens) {
        return node(alloc, depth, Expr::None, 0, rest);
    }
    if let Some(rest) = after_word("Some", tokens) {
        let rest = expect(symbols::OPEN_PAREN, rest)?;
        let (inner, rest) = closed(alloc, depth - 1, rest)?;
        return node(alloc, depth, Expr::Some(inner.tree), inner.height, rest);
    }
    if let Some(rest) = after_word("this", tokens) {
        return node(alloc, depth, Expr::This, 0, rest);
    }
    if let Some(rest) = after(symbols::OPEN_PAREN, tokens) {
        let (inner, rest) = closed(alloc, depth - 1, rest)?;
        return built_within(depth, inner.tree, inner.height, rest);
    }
    if let Some(rest) = after_word("query", tokens) {
        let (found, rest) = pattern(alloc, depth - 1, rest)?;
        return node(alloc, depth, Expr::Query(found.tree), found.height, rest);
    }
    if let Some(rest) = after_word("exists", tokens) {
        let (found, rest) = pattern(alloc, depth - 1, rest)?;
        return node(alloc, depth, Expr::Exists(found.tree), found.height, rest);
    }
    if let Some(rest) = after_word("if", tokens) {
        return if_expression(alloc, depth, rest);
    }
    if let Some((operator, rest)) = operators::arithmetic_operator(tokens) {
        return arithmetic(alloc, depth, operator, rest);
    }
    if let Some((operator, rest)) = operators::count_operator(tokens) {
        return counted(alloc, depth, operator, rest);
    }
    let (literal, rest) = constant(alloc, tokens)?;
    node(alloc, depth, Expr::Literal(literal), 0, rest)
}

/// An expression and the parenthesis that closes it
#[cycle(expr)]
fn closed<'a>(alloc: Global, limit: usize, tokens: &'a [Token]) -> Parsed<'a, Boxed<Expr>>
    ensures { Reads part_read result (before close_paren (read_expr limit (whole false)) (kinds tokens.now)) }
{
    let (inner, rest) = expression(alloc, limit, false, tokens)?;
    let rest = expect(symbols::CLOSE_PAREN, rest)?;
    Ok((inner, rest))
}

/// `(expr, expr)`
#[cycle(expr)]
fn arithmetic<'a>(
    alloc: Global,
    depth: usize,
    operator: Arithmetic,
    tokens: &'a [Token],
) -> Parsed<'a, Boxed<Expr>>
    requires { 0 < depth }
    ensures { Reads part_read result (arithmetic_over (read_expr (depth - 1)) (depth - 1) operator (kinds tokens.now)) }
{
    let rest = expect(symbols::OPEN_PAREN, tokens)?;
    let (first, rest) = expression(alloc, depth - 1, false, rest)?;
    let rest = expect(symbols::COMMA, rest)?;
    let (second, rest) = closed(alloc, depth - 1, rest)?;
    let height = higher(first.height, second.height);
    let tree = Expr::Arithmetic(operator, first.tree, second.tree);
    node(alloc, depth, tree, height, rest)
}

/// A number and a pattern
#[cycle(expr)]
fn counted<'a>(
    alloc: Global,
    depth: usize,
    operator: Count,
    tokens: &'a [Token],
) -> Parsed<'a, Boxed<Expr>>
    requires { 0 < depth }
    ensures { Reads part_read result (count_over (read_expr (depth - 1)) (depth - 1) operator (kinds tokens.now)) }
{
    let (number, rest) = number(tokens)?;
    let (found, rest) = pattern(alloc, depth - 1, rest)?;
    node(
        alloc,
        depth,
        Expr::Count(operator, number, found.tree),
        found.height,
        rest,
    )
}
