//! The values of expressions. A block of an `if` puts its names behind those in scope, and they are taken off behind it.

ghost use Rattle.std.specs.Prelude.{◌≡◌, ℕ, IfOk, IsTrue};
ghost use Rattle.fact_store.specs.Rows.{are_keys};
ghost use Rattle.fact_store.specs.declared.wanted.Wanted.{Wanted};
ghost use Rattle.policy_expressions.specs.Answers.{Gives};
ghost use Rattle.policy_expressions.specs.Forms.{count_of};
ghost use Rattle.policy_expressions.specs.Meant.{binds_meant, block_meant, else_meant, gaps_meant, meant, values_meant, wanted_meant};
ghost use Rattle.policy_meaning.specs.Outcomes.{Out};
ghost use Rattle.policy_rules.specs.Expressions.{value_part};
ghost use Rattle.policy_eval.specs.working.Endings.{Evaluates, EvaluatesWithin};

use crate::calls::called;
use base_bytes::{Value, Values};
use fact_store::{FactBase, Wanted};
use policy_ast::{Bind, Count, ElseExpr, Expr, ExprBlock, Free, Pattern};
use policy_expressions::{
    Answer, Env, Known, Setting, calculation_of, compare_of, count_of, exists_of, field_of,
    foreign_value, let_in, literal_value, name_value, pattern_of, presence_of, push_gap,
    push_value, query_of, some_of, struct_of, this_value, truth_of, unary_of,
};
use sqlite_items::Items;
use std::alloc::Global;

/// The number of rows that match, held against a number that is written out.
fn rows_counted<F: FactBase>(facts: &F, op: Count, n: &i64, found: Answer<Wanted>) -> Answer<Value>
    requires keys { IfOk found (λ wanted. IsTrue (are_keys wanted.keys)) }
    ensures { (turns : ℕ) (out : Out Wanted) → Gives found turns out → Gives result turns (count_of (F.rows facts.now) op n.now out) }
{
    count_of(facts, op, *n, found)
}

/// The value of an expression over these facts, where calls stand in chains of at most `depth`. The names in scope stay as they are.
#[cycle(value_of)]
pub fn value_of<'a, F: FactBase>(
    alloc: Global,
    known: &Known<'a>,
    facts: &F,
    setting: &Setting<'_>,
    depth: u32,
    env: &mut Env<'a>,
    turns: &mut u32,
    e: &'a Expr,
) -> Answer<Value>
    ensures { Evaluates result (meant known.now (F.rows facts.now) setting.now depth e.now) env.old env.new turns.old turns.new }
{
    match e {
        Expr::Or(a, b) => {
            let a = a.get();
            let b = b.get();
            let first = value_of(alloc, known, facts, setting, depth, env, turns, a);
            let test = truth_of(first)?;
            if test {
                Ok(Value::Bool(true))
            } else {
                value_of(alloc, known, facts, setting, depth, env, turns, b)
            }
        }
        Expr::And(a, b) => {
            let a = a.get();
            let b = b.get();
            let first = value_of(alloc, known, facts, setting, depth, env, turns, a);
            let test = truth_of(first)?;
            if test {
                value_of(alloc, known, facts, setting, depth, env, turns, b)
            } else {
                Ok(Value::Bool(false))
            }
        }
        Expr::Compare(a, op, b) => {
            let a = a.get();
            let b = b.get();
            let first = value_of(alloc, known, facts, setting, depth, env, turns, a)?;
            let second = value_of(alloc, known, facts, setting, depth, env, turns, b);
            compare_of(*op, first, second)
        }
        Expr::Is(a, op) => {
            let a = a.get();
            let found = value_of(alloc, known, facts, setting, depth, env, turns, a);
            presence_of(*op, found)
        }
        Expr::Unary(op, a) => {
            let a = a.get();
            let found = value_of(alloc, known, facts, setting, depth, env, turns, a);
            unary_of(*op, found)
        }
        Expr::Field(a, name) => {
            let a = a.get();
            let found = value_of(alloc, known, facts, setting, depth, env, turns, a);
            field_of(known, name, found)
        }
        Expr::Literal(literal) => literal_value(alloc, known, literal),
        Expr::None => Ok(Value::Nothing),
        Expr::Some(a) => {
            let a = a.get();
            let found = value_of(alloc, known, facts, setting, depth, env, turns, a);
            some_of(alloc, found)
        }
        Expr::This => this_value(alloc, setting),
        Expr::Name(name) => name_value(alloc, known, env, name),
        Expr::ForeignCall(of, function, _) => foreign_value(setting, of, function),
        Expr::Call(function, arguments) => {
            let arguments = arguments.as_slice();
            let values = values_of(alloc, known, facts, setting, depth, env, turns, arguments)?;
            called(alloc, known, facts, depth, turns, function, values)
        }
        Expr::Struct(name, binds) => {
            let binds = binds.as_slice();
            let found = bound_values(alloc, known, facts, setting, depth, env, turns, binds);
            struct_of(alloc, known, name, binds, found)
        }
        Expr::Arithmetic(op, a, b) => {
            let a = a.get();
            let b = b.get();
            let first = value_of(alloc, known, facts, setting, depth, env, turns, a)?;
            let second = value_of(alloc, known, facts, setting, depth, env, turns, b);
            calculation_of(alloc, *op, first, second)
        }
        Expr::Query(p) => {
            let found = wanted_of(alloc, known, facts, setting, depth, env, turns, p);
            query_of(alloc, facts, found)
        }
        Expr::Exists(p) => {
            let found = wanted_of(alloc, known, facts, setting, depth, env, turns, p);
            exists_of(facts, found)
        }
        Expr::Count(op, n, p) => {
            let found = wanted_of(alloc, known, facts, setting, depth, env, turns, p);
            rows_counted(facts, *op, n, found)
        }
        Expr::If(x) => {
            let x = x.get();
            let head = value_of(alloc, known, facts, setting, depth, env, turns, &x.head);
            let test = truth_of(head)?;
            if test {
                block_value(alloc, known, facts, setting, depth, env, turns, &x.then)
            } else {
                else_value(
                    alloc,
                    known,
                    facts,
                    setting,
                    depth,
                    env,
                    turns,
                    &x.otherwise,
                )
            }
        }
    }
}

/// The values of a list of expressions.
#[cycle(value_of)]
pub fn values_of<'a, F: FactBase>(
    alloc: Global,
    known: &Known<'a>,
    facts: &F,
    setting: &Setting<'_>,
    depth: u32,
    env: &mut Env<'a>,
    turns: &mut u32,
    es: &'a [Expr],
) -> Answer<Values>
    ensures { Evaluates result (values_meant known.now (F.rows facts.now) setting.now depth es.now) env.old env.new turns.old turns.new }
{
    let mut values = Items::new(alloc);
    for e in es {
        let found = value_of(alloc, known, facts, setting, depth, env, turns, e);
        push_value(&mut values, found)?;
    }
    Ok(values)
}

/// The values of the expressions that are bound.
#[cycle(value_of)]
pub fn bound_values<'a, F: FactBase>(
    alloc: Global,
    known: &Known<'a>,
    facts: &F,
    setting: &Setting<'_>,
    depth: u32,
    env: &mut Env<'a>,
    turns: &mut u32,
    binds: &'a [Bind<Expr>],
) -> Answer<Values>
    ensures { Evaluates result (binds_meant known.now (F.rows facts.now) setting.now depth binds.now) env.old env.new turns.old turns.new }
{
    let mut values = Items::new(alloc);
    for bind in binds {
        let found = value_of(alloc, known, facts, setting, depth, env, turns, &bind.value);
        push_value(&mut values, found)?;
    }
    Ok(values)
}

/// The values of the fields of a pattern. A `?` has none.
#[cycle(value_of)]
fn free_values<'a, F: FactBase>(
    alloc: Global,
    known: &Known<'a>,
    facts: &F,
    setting: &Setting<'_>,
    depth: u32,
    env: &mut Env<'a>,
    turns: &mut u32,
    frees: &'a [Free<Expr>],
) -> Answer<Items<Option<Value>>>
    ensures { Evaluates result (gaps_meant known.now (F.rows facts.now) setting.now depth frees.now) env.old env.new turns.old turns.new }
{
    let mut values = Items::new(alloc);
    for free in frees {
        let Some(e) = &free.value else {
            values.push(None)?;
            continue;
        };
        let found = value_of(alloc, known, facts, setting, depth, env, turns, e);
        push_gap(&mut values, found)?;
    }
    Ok(values)
}

/// The value fields that a pattern names.
fn value_fields(p: &Pattern<Expr>) -> &[Free<Expr>]
    ensures { result.now ≡ value_part p.now.values }
{
    match &p.values {
        Some(fields) => fields.as_slice(),
        None => &[],
    }
}

/// The rows that a pattern asks for.
#[cycle(value_of)]
pub fn wanted_of<'a, F: FactBase>(
    alloc: Global,
    known: &Known<'a>,
    facts: &F,
    setting: &Setting<'_>,
    depth: u32,
    env: &mut Env<'a>,
    turns: &mut u32,
    p: &'a Pattern<Expr>,
) -> Answer<Wanted>
    ensures gives { Evaluates result (wanted_meant known.now (F.rows facts.now) setting.now depth p.now) env.old env.new turns.old turns.new }
    ensures keys { IfOk result (λ wanted. IsTrue (are_keys wanted.keys)) }
{
    let keys = p.keys.as_slice();
    let keys = free_values(alloc, known, facts, setting, depth, env, turns, keys)?;
    let fields = value_fields(p);
    let found = free_values(alloc, known, facts, setting, depth, env, turns, fields);
    pattern_of(alloc, known, p, keys, found)
}

/// The value of a block.
#[cycle(value_of)]
fn block_value<'a, F: FactBase>(
    alloc: Global,
    known: &Known<'a>,
    facts: &F,
    setting: &Setting<'_>,
    depth: u32,
    env: &mut Env<'a>,
    turns: &mut u32,
    b: &'a ExprBlock<Expr>,
) -> Answer<Value>
    ensures { Evaluates result (block_meant known.now (F.rows facts.now) setting.now depth b.now) env.old env.new turns.old turns.new }
{
    let outside = env.len();
    let found = value_within(alloc, known, facts, setting, depth, env, turns, b);
    env.truncate(outside);
    found
}

/// The same, where its names stay in scope.
#[cycle(value_of)]
fn value_within<'a, F: FactBase>(
    alloc: Global,
    known: &Known<'a>,
    facts: &F,
    setting: &Setting<'_>,
    depth: u32,
    env: &mut Env<'a>,
    turns: &mut u32,
    b: &'a ExprBlock<Expr>,
) -> Answer<Value>
    ensures { EvaluatesWithin result (block_meant known.now (F.rows facts.now) setting.now depth b.now) env.old env.new turns.old turns.new }
{
    for one in b.lets.as_slice() {
        let found = value_of(alloc, known, facts, setting, depth, env, turns, &one.value);
        let_in(env, &one.name, found)?;
    }
    value_of(alloc, known, facts, setting, depth, env, turns, &b.value)
}

/// The value of what follows `else`.
#[cycle(value_of)]
fn else_value<'a, F: FactBase>(
    alloc: Global,
    known: &Known<'a>,
    facts: &F,
    setting: &Setting<'_>,
    depth: u32,
    env: &mut Env<'a>,
    turns: &mut u32,
    otherwise: &'a ElseExpr<Expr>,
) -> Answer<Value>
    ensures { Evaluates result (else_meant known.now (F.rows facts.now) setting.now depth otherwise.now) env.old env.new turns.old turns.new }
{
    match otherwise {
        ElseExpr::Block(b) => block_value(alloc, known, facts, setting, depth, env, turns, b),
        ElseExpr::If(e) => value_of(alloc, known, facts, setting, depth, env, turns, e),
    }
}
