//! Whether statements are well typed, and the scope behind each.

ghost use Rattle.std.specs.Prelude.{◌≡◌, ◌&&◌, nat_lt};
ghost use Rattle.policy_ast.specs.declared.statement.Stmt.{out-Stmt};
ghost use Rattle.policy_rules.specs.Statements.{is_last_layer};
ghost use Rattle.policy_infer.specs.working.Answers.{LeadsOn, TestsWithin};
ghost use Rattle.policy_infer.specs.working.Behind.{are_arms, are_stmts, behind, is_else};

use crate::coverage::matches_of;
use crate::expressions::infer;
use crate::finish::finishes;
use crate::passing::{Allowed, both_hold, check_of};
use crate::refusal::Refusal;
use crate::scope::Scope;
use crate::statement_rules::{begin_map, publishes_of, returns_of};
use crate::uses::introduce;
use policy_ast::{Arm, Else, IfStmt, Stmt};
use policy_heads::Heads;
use policy_rules::Context;
use std::alloc::Global;

/// Whether nothing may stand behind the statement.
fn is_last(s: &Stmt) -> bool
    ensures { result ≡ is_last_layer (out-Stmt s.now) }
{
    matches!(s, Stmt::Finish(_) | Stmt::Return(_))
}

/// Whether a statement that has to be the last has others behind it.
fn is_misplaced(s: &Stmt, behind: usize) -> bool
    ensures { result ≡ (is_last_layer (out-Stmt s.now) && nat_lt 0 behind) }
{
    is_last(s) && 0 < behind
}

/// A statement leads on to the scope behind it.
#[cycle(judge)]
fn judge(
    alloc: Global,
    heads: &Heads<'_>,
    context: &Context,
    scope: &mut Scope,
    s: &Stmt,
) -> Allowed
    ensures { LeadsOn result (behind heads.now context.now s.now) scope.old scope.new }
{
    match s {
        Stmt::Let(one) => {
            let found = infer(alloc, heads, context, scope, &one.value);
            introduce(alloc, heads, context, scope, &one.name, found)
        }
        Stmt::Check(e) => check_of(infer(alloc, heads, context, scope, e)),
        Stmt::If(x) => {
            let head = check_of(infer(alloc, heads, context, scope, &x.head));
            let outside = scope.len();
            let then = judge_all(alloc, heads, context, scope, x.then.as_slice());
            scope.truncate(outside);
            let otherwise = judge_else(alloc, heads, context, scope, x);
            scope.truncate(outside);
            both_hold(head, both_hold(then, otherwise))
        }
        Stmt::Match(e, arms) => {
            let found = infer(alloc, heads, context, scope, e);
            let arms = arms.as_slice();
            let head = matches_of(alloc, heads, arms, found);
            let outside = scope.len();
            let bodies = judge_arms(alloc, heads, context, scope, arms);
            scope.truncate(outside);
            both_hold(head, bodies)
        }
        Stmt::Finish(statements) => {
            finishes(alloc, heads, context, scope, statements.as_slice())
        }
        Stmt::Map(p, name, body) => {
            let outside = scope.len();
            begin_map(alloc, heads, context, scope, p, name)?;
            let result = judge_all(alloc, heads, context, scope, body.as_slice());
            scope.truncate(outside);
            result
        }
        Stmt::Publish(e) => {
            let found = infer(alloc, heads, context, scope, e);
            publishes_of(heads, context, found)
        }
        Stmt::Return(e) => returns_of(context, infer(alloc, heads, context, scope, e)),
    }
}

/// Whether a list of statements is well typed. The names that it introduces are left to the caller to take off.
#[cycle(judge)]
pub fn judge_all(
    alloc: Global,
    heads: &Heads<'_>,
    context: &Context,
    scope: &mut Scope,
    body: &[Stmt],
) -> Allowed
    ensures { TestsWithin result (are_stmts heads.now context.now body.now) scope.old scope.new }
{
    for i in 0..body.len() {
        judge(alloc, heads, context, scope, &body[i])?;
        if is_misplaced(&body[i], body.len() - i - 1) {
            return Err(Refusal::IllTyped);
        }
    }
    Ok(())
}

/// What follows `else`, if anything.
#[cycle(judge)]
fn judge_else(
    alloc: Global,
    heads: &Heads<'_>,
    context: &Context,
    scope: &mut Scope,
    x: &IfStmt<Stmt>,
) -> Allowed
    ensures { TestsWithin result (is_else heads.now context.now x.now.otherwise) scope.old scope.new }
{
    let body = match &x.otherwise {
        None => return Ok(()),
        Some(Else::If(s)) => return judge(alloc, heads, context, scope, s.get()),
        Some(Else::Block(body)) => body.as_slice(),
    };
    for i in 0..body.len() {
        judge(alloc, heads, context, scope, &body[i])?;
        if is_misplaced(&body[i], body.len() - i - 1) {
            return Err(Refusal::IllTyped);
        }
    }
    Ok(())
}

/// The bodies of all arms.
#[cycle(judge)]
fn judge_arms(
    alloc: Global,
    heads: &Heads<'_>,
    context: &Context,
    scope: &mut Scope,
    arms: &[Arm<Stmt>],
) -> Allowed
    ensures { TestsWithin result (are_arms heads.now context.now arms.now) scope.old scope.new }
{
    for arm in arms {
        let outside = scope.len();
        let body = arm.body.as_slice();
        for i in 0..body.len() {
            judge(alloc, heads, context, scope, &body[i])?;
            if is_misplaced(&body[i], body.len() - i - 1) {
                return Err(Refusal::IllTyped);
            }
        }
        scope.truncate(outside);
    }
    Ok(())
}
