//! Statements. Each function gives what the tokens begin with and the tokens behind it, and refuses where they don't
//! begin so. `depth` is how high the node may be, and `limit` how high parts may be that are no nodes of their own.

ghost use Rattle.std.specs.Prelude.{◌<◌, ◌-◌, suc, true};
ghost use Rattle.policy_ast.specs.declared.statement.Stmt.TheVariants.{Let};
ghost use Rattle.policy_ast.specs.grammar.Expressions.{whole};
ghost use Rattle.policy_ast.specs.grammar.Fixed.{close_brace};
ghost use Rattle.policy_ast.specs.grammar.Policies.{kinds};
ghost use Rattle.policy_ast.specs.grammar.Statements.{if_statement, statement};
ghost use Rattle.policy_ast.proofs.grammar.Reading.{built, making, many};
ghost use Rattle.policy_ast.proofs.grammar.ReadingExpressions.{let_over, read_expr};
ghost use Rattle.policy_ast.proofs.grammar.ReadingStatements.{arm_over, block_over, else_over, if_over, map_over, match_over, read_stmt, stmt_over};
ghost use Rattle.policy_parse.specs.working.Reads.{Reads, part_read};

use crate::arms::arm_pattern;
use crate::expressions::expression;
use crate::finish::finish_block;
use crate::if_expressions::binding;
use crate::parts::{Parsed, appended, higher, node, nothing_yet, unboxed};
use crate::patterns::pattern;
use crate::tokens::{after, after_word, expect, expect_word, name};
use crate::unparsed::Unparsed;
use policy_ast::{Arm, Else, Expr, IfStmt, Part, Stmt, Token, symbols};
use sqlite_items::{Boxed, Items};
use std::alloc::Global;

/// A statement.
#[tactic(auto, using(crate::proofs::Steps::stmt_step, crate::proofs::Steps::stmt_none))]
#[cycle(stmt)]
fn statement<'a>(alloc: Global, depth: usize, tokens: &'a [Token]) -> Parsed<'a, Boxed<Stmt>>
    ensures { Reads part_read result (read_stmt depth statement (kinds tokens.now)) }
{
    if depth == 0 {
        return Err(Unparsed::NoMatch);
    }
    stmt_by_word(alloc, depth, tokens)
}

/// The `if` that follows an `else`.
#[tactic(auto, using(crate::proofs::Steps::stmt_step, crate::proofs::Steps::stmt_none))]
#[cycle(stmt)]
fn else_if_stmt<'a>(alloc: Global, depth: usize, tokens: &'a [Token]) -> Parsed<'a, Boxed<Stmt>>
    ensures { Reads part_read result (read_stmt depth if_statement (kinds tokens.now)) }
{
    if depth == 0 {
        return Err(Unparsed::NoMatch);
    }
    let rest = expect_word("if", tokens)?;
    if_stmt(alloc, depth, rest)
}

/// A statement, by its first word
#[cycle(stmt)]
fn stmt_by_word<'a>(alloc: Global, depth: usize, tokens: &'a [Token]) -> Parsed<'a, Boxed<Stmt>>
    requires { 0 < depth }
    ensures { Reads part_read result (stmt_over (read_stmt (depth - 1)) (depth - 1) (kinds tokens.now)) }
{
    if let Some(rest) = after_word("check", tokens) {
        let (found, rest) = expression(alloc, depth - 1, false, rest)?;
        let height = found.height;
        let tree = Stmt::Check(found.tree.into_inner());
        return node(alloc, depth, tree, height, rest);
    }
    if let Some(rest) = after_word("if", tokens) {
        return if_stmt(alloc, depth, rest);
    }
    if let Some(rest) = after_word("match", tokens) {
        return match_stmt(alloc, depth, rest);
    }
    if let Some(rest) = after_word("finish", tokens) {
        let (found, rest) = finish_block(alloc, depth - 1, rest)?;
        return node(alloc, depth, Stmt::Finish(found.tree), found.height, rest);
    }
    if let Some(rest) = after_word("map", tokens) {
        return map_stmt(alloc, depth, rest);
    }
    if let Some(rest) = after_word("publish", tokens) {
        let (found, rest) = expression(alloc, depth - 1, false, rest)?;
        let height = found.height;
        let tree = Stmt::Publish(found.tree.into_inner());
        return node(alloc, depth, tree, height, rest);
    }
    if let Some(rest) = after_word("return", tokens) {
        let (found, rest) = expression(alloc, depth - 1, false, rest)?;
        let height = found.height;
        let tree = Stmt::Return(found.tree.into_inner());
        return node(alloc, depth, tree, height, rest);
    }
    let_stmt(alloc, depth, tokens)
}

/// `let name = expr`
fn let_stmt<'a>(alloc: Global, depth: usize, tokens: &'a [Token]) -> Parsed<'a, Boxed<Stmt>>
    requires { 0 < depth }
    ensures { Reads part_read result (making Let (let_over (read_expr (suc (depth - 1))) (suc (depth - 1))) (kinds tokens.now)) }
{
    let (found, rest) = binding(alloc, depth, tokens)?;
    let height = found.height;
    let tree = Boxed::new(alloc, Stmt::Let(found.tree))?;
    Ok((Part { tree, height }, rest))
}

/// An expression that a block or arms follow.
fn head<'a>(alloc: Global, limit: usize, tokens: &'a [Token]) -> Parsed<'a, Boxed<Expr>>
    ensures { Reads part_read result (read_expr limit (whole true) (kinds tokens.now)) }
{
    expression(alloc, limit, true, tokens)
}

/// What follows `if`
#[cycle(stmt)]
fn if_stmt<'a>(alloc: Global, depth: usize, tokens: &'a [Token]) -> Parsed<'a, Boxed<Stmt>>
    requires { 0 < depth }
    ensures { Reads part_read result (if_over (read_stmt (depth - 1)) (depth - 1) (kinds tokens.now)) }
{
    let (head, rest) = head(alloc, depth - 1, tokens)?;
    let (then, rest) = block(alloc, depth - 1, rest)?;
    let Some(behind) = after_word("else", rest) else {
        let height = higher(head.height, then.height);
        let parts = IfStmt {
            head: head.tree.into_inner(),
            then: then.tree,
            otherwise: None,
        };
        return node(alloc, depth, Stmt::If(parts), height, rest);
    };
    let (otherwise, rest) = else_stmt(alloc, depth - 1, behind)?;
    let height = higher(head.height, higher(then.height, otherwise.height));
    let parts = IfStmt {
        head: head.tree.into_inner(),
        then: then.tree,
        otherwise: Some(otherwise.tree),
    };
    node(alloc, depth, Stmt::If(parts), height, rest)
}

/// What follows `else`
#[cycle(stmt)]
fn else_stmt<'a>(alloc: Global, limit: usize, tokens: &'a [Token]) -> Parsed<'a, Else<Stmt>>
    ensures { Reads part_read result (else_over (read_stmt limit) limit (kinds tokens.now)) }
{
    if let Some(rest) = after(symbols::OPEN_BRACE, tokens) {
        let (found, rest) = statements(alloc, limit, rest)?;
        let height = found.height;
        let tree = Else::Block(found.tree);
        return Ok((Part { tree, height }, rest));
    }
    let (found, rest) = else_if_stmt(alloc, limit, tokens)?;
    let height = found.height;
    let tree = Else::If(found.tree);
    Ok((Part { tree, height }, rest))
}

/// `{ .. }`
#[cycle(stmt)]
pub fn block<'a>(alloc: Global, limit: usize, tokens: &'a [Token]) -> Parsed<'a, Items<Stmt>>
    ensures { Reads part_read result (block_over (read_stmt limit) limit (kinds tokens.now)) }
{
    let rest = expect(symbols::OPEN_BRACE, tokens)?;
    statements(alloc, limit, rest)
}

/// Statements and the brace that closes them
#[tactic(auto, using(crate::proofs::Turns::many_turn, crate::proofs::Turns::many_full))]
#[cycle(stmt)]
fn statements<'a>(alloc: Global, limit: usize, tokens: &'a [Token]) -> Parsed<'a, Items<Stmt>>
    ensures { Reads part_read result (many close_brace (read_stmt limit statement) (kinds tokens.now)) }
{
    let mut found = nothing_yet(alloc);
    let mut rest = tokens;
    for _ in 0..tokens.len() {
        if let Some(behind) = after(symbols::CLOSE_BRACE, rest) {
            return Ok((found, behind));
        }
        let (one, behind) = statement(alloc, limit, rest)?;
        found = appended(found, unboxed(one))?;
        rest = behind;
    }
    Err(Unparsed::NoMatch)
}

/// What follows `match`
#[cycle(stmt)]
fn match_stmt<'a>(alloc: Global, depth: usize, tokens: &'a [Token]) -> Parsed<'a, Boxed<Stmt>>
    requires { 0 < depth }
    ensures { Reads part_read result (match_over (read_stmt (depth - 1)) (depth - 1) (kinds tokens.now)) }
{
    let (head, rest) = head(alloc, depth - 1, tokens)?;
    let rest = expect(symbols::OPEN_BRACE, rest)?;
    let (found, rest) = arms(alloc, depth - 1, rest)?;
    let height = higher(head.height, found.height);
    let tree = Stmt::Match(head.tree.into_inner(), found.tree);
    node(alloc, depth, tree, height, rest)
}

/// Arms and the brace that closes them
#[tactic(auto, using(crate::proofs::Turns::many_turn, crate::proofs::Turns::many_full))]
#[cycle(stmt)]
fn arms<'a>(alloc: Global, limit: usize, tokens: &'a [Token]) -> Parsed<'a, Items<Arm<Stmt>>>
    ensures { Reads part_read result (many close_brace (arm_over (read_stmt limit) limit) (kinds tokens.now)) }
{
    let mut found = nothing_yet(alloc);
    let mut rest = tokens;
    for _ in 0..tokens.len() {
        if let Some(behind) = after(symbols::CLOSE_BRACE, rest) {
            return Ok((found, behind));
        }
        let (one, behind) = arm(alloc, limit, rest)?;
        found = appended(found, one)?;
        rest = behind;
    }
    Err(Unparsed::NoMatch)
}

/// An arm, and the comma that may stand behind it
#[cycle(stmt)]
fn arm<'a>(alloc: Global, limit: usize, tokens: &'a [Token]) -> Parsed<'a, Arm<Stmt>>
    ensures { Reads part_read result (arm_over (read_stmt limit) limit (kinds tokens.now)) }
{
    let (pattern, rest) = arm_pattern(alloc, tokens)?;
    let rest = expect(symbols::ARROW, rest)?;
    let (body, rest) = block(alloc, limit, rest)?;
    let height = body.height;
    let tree = Arm {
        pattern,
        body: body.tree,
    };
    let rest = after(symbols::COMMA, rest).unwrap_or(rest);
    Ok((Part { tree, height }, rest))
}

/// What follows `map`: a pattern, `as`, a name and a block
#[cycle(stmt)]
fn map_stmt<'a>(alloc: Global, depth: usize, tokens: &'a [Token]) -> Parsed<'a, Boxed<Stmt>>
    requires { 0 < depth }
    ensures { Reads part_read result (map_over (read_stmt (depth - 1)) (depth - 1) (kinds tokens.now)) }
{
    let (found, rest) = pattern(alloc, depth - 1, tokens)?;
    let rest = expect_word("as", rest)?;
    let (row, rest) = name(alloc, rest)?;
    let (body, rest) = block(alloc, depth - 1, rest)?;
    let height = higher(found.height, body.height);
    let tree = Stmt::Map(found.tree, row, body.tree);
    node(alloc, depth, tree, height, rest)
}
