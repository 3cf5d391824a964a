//! Statements of functions, and of policy and recall blocks.

ghost use Rattle.std.specs.Prelude.{◌≡◌};
ghost use Rattle.policy_expressions.specs.Meant.{else_stmt_meant, stmt_meant, stmts_meant};
ghost use Rattle.policy_eval.specs.working.Endings.{Runs};

use crate::expressions::value_of;
use crate::flow::{Flow, block_end, body_taken, check_flow, goes, let_flow, return_flow};
use fact_store::FactBase;
use policy_ast::{Else, Stmt};
use policy_expressions::{Answer, Env, Known, Setting, Stop, truth_of};
use std::alloc::Global;

/// Runs a statement, up to its `finish` if it comes to one, where calls stand in chains of at most `depth`. The names that were in scope are
/// still the first.
#[cycle(value_of)]
pub fn run<'a, F: FactBase>(
    alloc: Global,
    known: &Known<'a>,
    facts: &F,
    setting: &Setting<'_>,
    depth: u32,
    env: &mut Env<'a>,
    turns: &mut u32,
    s: &'a Stmt,
) -> Answer<Flow<'a>>
    ensures { Runs result (λ lists. stmt_meant known.now (F.rows facts.now) setting.now depth lists s.now) env.old env.new turns.old turns.new }
{
    match s {
        Stmt::Let(one) => {
            let found = value_of(alloc, known, facts, setting, depth, env, turns, &one.value);
            let_flow(env, &one.name, found)
        }
        Stmt::Check(e) => {
            let found = value_of(alloc, known, facts, setting, depth, env, turns, e);
            check_flow(found)
        }
        Stmt::If(x) => {
            let outside = env.len();
            let head = value_of(alloc, known, facts, setting, depth, env, turns, &x.head);
            let test = truth_of(head)?;
            if test {
                let body = x.then.as_slice();
                let flow = run_all(alloc, known, facts, setting, depth, env, turns, body);
                block_end(env, outside, flow)
            } else {
                let rest = &x.otherwise;
                let flow = run_else(alloc, known, facts, setting, depth, env, turns, rest);
                block_end(env, outside, flow)
            }
        }
        Stmt::Match(e, arms) => {
            let outside = env.len();
            let arms = arms.as_slice();
            let found = value_of(alloc, known, facts, setting, depth, env, turns, e);
            let body = body_taken(known, arms, found)?;
            let flow = run_all(alloc, known, facts, setting, depth, env, turns, body);
            block_end(env, outside, flow)
        }
        Stmt::Finish(statements) => {
            let statements = statements.as_slice();
            Ok(Flow::Reached(statements))
        }
        Stmt::Map(_, _, _) => Err(Stop::Stuck),
        Stmt::Publish(_) => Err(Stop::Stuck),
        Stmt::Return(e) => {
            let found = value_of(alloc, known, facts, setting, depth, env, turns, e);
            return_flow(found)
        }
    }
}

/// Runs statements one after another, up to the `finish` if they come to one. The names that they put in scope are left there.
#[cycle(value_of)]
pub fn run_all<'a, F: FactBase>(
    alloc: Global,
    known: &Known<'a>,
    facts: &F,
    setting: &Setting<'_>,
    depth: u32,
    env: &mut Env<'a>,
    turns: &mut u32,
    body: &'a [Stmt],
) -> Answer<Flow<'a>>
    ensures { Runs result (λ lists. stmts_meant known.now (F.rows facts.now) setting.now depth lists body.now) env.old env.new turns.old turns.new }
{
    for s in body {
        let flow = run(alloc, known, facts, setting, depth, env, turns, s);
        if !goes(&flow) {
            return flow;
        }
    }
    Ok(Flow::Goes)
}

/// Runs what follows `else`, if anything.
#[cycle(value_of)]
fn run_else<'a, F: FactBase>(
    alloc: Global,
    known: &Known<'a>,
    facts: &F,
    setting: &Setting<'_>,
    depth: u32,
    env: &mut Env<'a>,
    turns: &mut u32,
    otherwise: &'a Option<Else<Stmt>>,
) -> Answer<Flow<'a>>
    ensures { Runs result (λ lists. else_stmt_meant known.now (F.rows facts.now) setting.now depth lists otherwise.now) env.old env.new turns.old turns.new }
{
    match otherwise {
        None => Ok(Flow::Goes),
        Some(Else::Block(body)) => run_all(
            alloc,
            known,
            facts,
            setting,
            depth,
            env,
            turns,
            body.as_slice(),
        ),
        Some(Else::If(s)) => run(alloc, known, facts, setting, depth, env, turns, s.get()),
    }
}
