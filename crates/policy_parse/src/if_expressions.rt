//! `if` as an expression, and the blocks that stand in it.

ghost use Rattle.std.specs.Prelude.{◌<◌, ◌-◌};
ghost use Rattle.policy_ast.specs.grammar.Fixed.{colon};
ghost use Rattle.policy_ast.specs.grammar.Policies.{kinds};
ghost use Rattle.policy_ast.proofs.grammar.Reading.{many};
ghost use Rattle.policy_ast.proofs.grammar.ReadingExpressions.{body_over, conditional_over, else_over, let_over, read_expr};
ghost use Rattle.policy_parse.specs.working.Reads.{Reads, part_read};

use crate::expressions::{else_if_expression, expression};
use crate::parts::{Parsed, appended, built, higher, node, nothing_yet};
use crate::tokens::{after, expect, expect_word, name};
use crate::unparsed::Unparsed;
use policy_ast::{ElseExpr, Expr, ExprBlock, IfExpr, Let, Part, Token, symbols};
use sqlite_items::{Boxed, Items};
use std::alloc::Global;

/// What follows `if`
#[cycle(expr)]
pub fn if_expression<'a>(
    alloc: Global,
    depth: usize,
    tokens: &'a [Token],
) -> Parsed<'a, Boxed<Expr>>
    requires { 0 < depth }
    ensures { Reads part_read result (conditional_over (read_expr (depth - 1)) (depth - 1) (kinds tokens.now)) }
{
    let (head, rest) = expression(alloc, depth - 1, true, tokens)?;
    let rest = expect(symbols::OPEN_BRACE, rest)?;
    let (then, rest) = body(alloc, depth - 1, rest)?;
    let rest = expect_word("else", rest)?;
    let (otherwise, rest) = else_expression(alloc, depth - 1, rest)?;
    let height = higher(head.height, higher(then.height, otherwise.height));
    let parts = IfExpr {
        head: head.tree.into_inner(),
        then: then.tree.into_inner(),
        otherwise: otherwise.tree,
    };
    let parts = Boxed::new(alloc, parts)?;
    node(alloc, depth, Expr::If(parts), height, rest)
}

/// What follows the opening brace of `{ let name = expr .. : expr }`
#[cycle(expr)]
fn body<'a>(alloc: Global, limit: usize, tokens: &'a [Token]) -> Parsed<'a, Boxed<ExprBlock<Expr>>>
    ensures { Reads part_read result (body_over (read_expr limit) limit (kinds tokens.now)) }
{
    let (lets, rest) = lets(alloc, limit, tokens)?;
    let (value, rest) = expression(alloc, limit, false, rest)?;
    let rest = expect(symbols::CLOSE_BRACE, rest)?;
    let height = higher(lets.height, value.height);
    let block = ExprBlock {
        lets: lets.tree,
        value: value.tree.into_inner(),
    };
    let tree = Boxed::new(alloc, block)?;
    Ok((Part { tree, height }, rest))
}

/// `let name = expr`, any number of them, and the colon behind them
#[tactic(auto, using(crate::proofs::Turns::many_turn, crate::proofs::Turns::many_full))]
#[cycle(expr)]
fn lets<'a>(alloc: Global, limit: usize, tokens: &'a [Token]) -> Parsed<'a, Items<Let<Expr>>>
    ensures { Reads part_read result (many colon (let_over (read_expr limit) limit) (kinds tokens.now)) }
{
    let mut found = nothing_yet(alloc);
    let mut rest = tokens;
    for _ in 0..tokens.len() {
        if let Some(behind) = after(symbols::COLON, rest) {
            return Ok((found, behind));
        }
        let (one, behind) = binding(alloc, limit, rest)?;
        found = appended(found, one)?;
        rest = behind;
    }
    Err(Unparsed::NoMatch)
}

/// `let name = expr`, whose height is at most that of what lies inside
#[cycle(expr)]
pub fn binding<'a>(alloc: Global, limit: usize, tokens: &'a [Token]) -> Parsed<'a, Let<Expr>>
    ensures { Reads part_read result (let_over (read_expr limit) limit (kinds tokens.now)) }
{
    let rest = expect_word("let", tokens)?;
    let (name, rest) = name(alloc, rest)?;
    let rest = expect(symbols::EQUALS, rest)?;
    let (value, rest) = expression(alloc, limit, false, rest)?;
    let tree = Let {
        name,
        value: value.tree.into_inner(),
    };
    built(limit, tree, value.height, rest)
}

/// What follows `else`
#[cycle(expr)]
fn else_expression<'a>(
    alloc: Global,
    limit: usize,
    tokens: &'a [Token],
) -> Parsed<'a, ElseExpr<Expr>>
    ensures { Reads part_read result (else_over (read_expr limit) limit (kinds tokens.now)) }
{
    if let Some(rest) = after(symbols::OPEN_BRACE, tokens) {
        let (found, rest) = body(alloc, limit, rest)?;
        let height = found.height;
        let tree = ElseExpr::Block(found.tree.into_inner());
        return Ok((Part { tree, height }, rest));
    }
    let (found, rest) = else_if_expression(alloc, limit, tokens)?;
    let height = found.height;
    let tree = ElseExpr::If(found.tree.into_inner());
    Ok((Part { tree, height }, rest))
}
