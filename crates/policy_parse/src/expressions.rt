//! Expressions down to their signs. Each function gives what the tokens begin with and the tokens behind it, and refuses
//! where they don't begin so. `depth` is how high the node may be, and `limit` how high parts may be that are no nodes of their
//! own.

ghost use Rattle.std.specs.Prelude.{◌<◌, ◌-◌, length, suc};
ghost use Rattle.policy_ast.specs.declared.expr.Expr.TheVariants.{And, Or};
ghost use Rattle.policy_ast.specs.grammar.Expressions.{conditional, operand, whole};
ghost use Rattle.policy_ast.specs.grammar.Fixed.{and, or};
ghost use Rattle.policy_ast.specs.grammar.Policies.{kinds};
ghost use Rattle.policy_ast.proofs.grammar.Reading.{chain, node_added};
ghost use Rattle.policy_ast.proofs.grammar.ReadingExpressions.{and_over, compared_over, comparison_over, or_over, read_expr, unary_over};
ghost use Rattle.policy_parse.specs.working.Reads.{Reads, part_read};

use crate::if_expressions::if_expression;
use crate::operators;
use crate::parts::{Parsed, dots, higher, node};
use crate::primaries::primary;
use crate::tokens::{after_word, expect_word};
use crate::unparsed::Unparsed;
use policy_ast::{Expr, Name, Part, Token};
use sqlite_items::Boxed;
use std::alloc::Global;

/// An expression. A head has no `Name {` outside of brackets.
#[tactic(auto, using(crate::proofs::Steps::expr_step, crate::proofs::Steps::expr_none))]
#[cycle(expr)]
pub fn expression<'a>(
    alloc: Global,
    depth: usize,
    is_head: bool,
    tokens: &'a [Token],
) -> Parsed<'a, Boxed<Expr>>
    ensures { Reads part_read result (read_expr depth (whole is_head) (kinds tokens.now)) }
{
    if depth == 0 {
        return Err(Unparsed::NoMatch);
    }
    disjunction(alloc, depth, is_head, tokens)
}

/// What a sign stands before.
#[tactic(auto, using(crate::proofs::Steps::expr_step, crate::proofs::Steps::expr_none))]
#[cycle(expr)]
fn operand<'a>(
    alloc: Global,
    depth: usize,
    is_head: bool,
    tokens: &'a [Token],
) -> Parsed<'a, Boxed<Expr>>
    ensures { Reads part_read result (read_expr depth (operand is_head) (kinds tokens.now)) }
{
    if depth == 0 {
        return Err(Unparsed::NoMatch);
    }
    unary(alloc, depth, is_head, tokens)
}

/// The `if` that follows an `else`.
#[tactic(auto, using(crate::proofs::Steps::expr_step, crate::proofs::Steps::expr_none))]
#[cycle(expr)]
pub fn else_if_expression<'a>(
    alloc: Global,
    depth: usize,
    tokens: &'a [Token],
) -> Parsed<'a, Boxed<Expr>>
    ensures { Reads part_read result (read_expr depth conditional (kinds tokens.now)) }
{
    if depth == 0 {
        return Err(Unparsed::NoMatch);
    }
    let rest = expect_word("if", tokens)?;
    if_expression(alloc, depth, rest)
}

/// Operands of `||`
#[cycle(expr)]
fn disjunction<'a>(
    alloc: Global,
    depth: usize,
    is_head: bool,
    tokens: &'a [Token],
) -> Parsed<'a, Boxed<Expr>>
    requires { 0 < depth }
    ensures { Reads part_read result (or_over (read_expr (depth - 1)) (depth - 1) is_head (kinds tokens.now)) }
{
    let (first, rest) = conjunction(alloc, depth, is_head, tokens)?;
    or_more(alloc, depth, is_head, first, rest)
}

#[tactic(auto, using(crate::proofs::Turns::chain_turn, crate::proofs::Turns::chain_full))]
#[cycle(expr)]
fn or_more<'a>(
    alloc: Global,
    depth: usize,
    is_head: bool,
    first: Part<Boxed<Expr>>,
    tokens: &'a [Token],
) -> Parsed<'a, Boxed<Expr>>
    requires { 0 < depth }
    ensures { Reads part_read result (chain or (node_added (suc (depth - 1)) Or) (and_over (read_expr (depth - 1)) (depth - 1) is_head) (length tokens.now) first (kinds tokens.now)) }
{
    let mut whole = first;
    let mut rest = tokens;
    let mut turns = tokens.len();
    while let Some(behind) = operators::after_or(rest) {
        if turns == 0 {
            return Err(Unparsed::NoMatch);
        }
        turns -= 1;
        let (next, behind) = conjunction(alloc, depth, is_head, behind)?;
        let height = higher(whole.height, next.height);
        let tree = Expr::Or(whole.tree, next.tree);
        let (both, behind) = node(alloc, depth, tree, height, behind)?;
        whole = both;
        rest = behind;
    }
    Ok((whole, rest))
}

/// Operands of `&&`
#[cycle(expr)]
fn conjunction<'a>(
    alloc: Global,
    depth: usize,
    is_head: bool,
    tokens: &'a [Token],
) -> Parsed<'a, Boxed<Expr>>
    requires { 0 < depth }
    ensures { Reads part_read result (and_over (read_expr (depth - 1)) (depth - 1) is_head (kinds tokens.now)) }
{
    let (first, rest) = comparison(alloc, depth, is_head, tokens)?;
    and_more(alloc, depth, is_head, first, rest)
}

#[tactic(auto, using(crate::proofs::Turns::chain_turn, crate::proofs::Turns::chain_full))]
#[cycle(expr)]
fn and_more<'a>(
    alloc: Global,
    depth: usize,
    is_head: bool,
    first: Part<Boxed<Expr>>,
    tokens: &'a [Token],
) -> Parsed<'a, Boxed<Expr>>
    requires { 0 < depth }
    ensures { Reads part_read result (chain and (node_added (suc (depth - 1)) And) (comparison_over (read_expr (depth - 1)) (depth - 1) is_head) (length tokens.now) first (kinds tokens.now)) }
{
    let mut whole = first;
    let mut rest = tokens;
    let mut turns = tokens.len();
    while let Some(behind) = operators::after_and(rest) {
        if turns == 0 {
            return Err(Unparsed::NoMatch);
        }
        turns -= 1;
        let (next, behind) = comparison(alloc, depth, is_head, behind)?;
        let height = higher(whole.height, next.height);
        let tree = Expr::And(whole.tree, next.tree);
        let (both, behind) = node(alloc, depth, tree, height, behind)?;
        whole = both;
        rest = behind;
    }
    Ok((whole, rest))
}

/// One operand, two that are compared, or one that is tested by `is`
#[cycle(expr)]
fn comparison<'a>(
    alloc: Global,
    depth: usize,
    is_head: bool,
    tokens: &'a [Token],
) -> Parsed<'a, Boxed<Expr>>
    requires { 0 < depth }
    ensures { Reads part_read result (comparison_over (read_expr (depth - 1)) (depth - 1) is_head (kinds tokens.now)) }
{
    let (first, rest) = unary(alloc, depth, is_head, tokens)?;
    compared(alloc, depth, is_head, first, rest)
}

/// What follows the first operand of a comparison.
#[cycle(expr)]
fn compared<'a>(
    alloc: Global,
    depth: usize,
    is_head: bool,
    first: Part<Boxed<Expr>>,
    tokens: &'a [Token],
) -> Parsed<'a, Boxed<Expr>>
    requires { 0 < depth }
    ensures { Reads part_read result (compared_over (read_expr (depth - 1)) (depth - 1) is_head first (kinds tokens.now)) }
{
    if let Some((operator, rest)) = operators::comparison_operator(tokens) {
        let (second, rest) = unary(alloc, depth, is_head, rest)?;
        let height = higher(first.height, second.height);
        let tree = Expr::Compare(first.tree, operator, second.tree);
        return node(alloc, depth, tree, height, rest);
    }
    let Some(rest) = after_word("is", tokens) else {
        return Ok((first, tokens));
    };
    let (presence, rest) = operators::presence(rest)?;
    node(
        alloc,
        depth,
        Expr::Is(first.tree, presence),
        first.height,
        rest,
    )
}

/// A sign and its operand, or a primary and the fields that are taken of it
#[cycle(expr)]
fn unary<'a>(
    alloc: Global,
    depth: usize,
    is_head: bool,
    tokens: &'a [Token],
) -> Parsed<'a, Boxed<Expr>>
    requires { 0 < depth }
    ensures { Reads part_read result (unary_over (read_expr (depth - 1)) (depth - 1) is_head (kinds tokens.now)) }
{
    if let Some((sign, rest)) = operators::sign(tokens) {
        let (inner, rest) = operand(alloc, depth - 1, is_head, rest)?;
        return node(
            alloc,
            depth,
            Expr::Unary(sign, inner.tree),
            inner.height,
            rest,
        );
    }
    let (first, rest) = primary(alloc, depth, is_head, tokens)?;
    dots(alloc, depth, first, rest)
}
