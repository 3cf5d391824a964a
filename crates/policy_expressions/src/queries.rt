//! What the rows that match are asked for.

ghost use Rattle.std.specs.Prelude.{◌≡◌, ◌<◌, ◌≤◌, ◌^◌, ℕ, min, IfOk, IfSome, IsTrue};
ghost use Rattle.fact_store.specs.Rows.{are_keys};
ghost use Rattle.fact_store.specs.declared.wanted.Wanted.{Wanted};
ghost use Rattle.policy_meaning.specs.Outcomes.{Out};
ghost use Rattle.policy_meaning.specs.Patterns.{row_value};
ghost use Rattle.policy_meaning.specs.Values.{counted, limit_of};
ghost use Rattle.policy_expressions.specs.Answers.{Gives};
ghost use Rattle.policy_expressions.specs.Forms.{count_of, exists_of, query_of};

use crate::stop::{Answer, Stop};
use base_bytes::{NoMemory, Value};
use fact_store::{FactBase, Row, Wanted};
use policy_ast::Count;
use sqlite_items::Boxed;
use std::alloc::Global;

/// The row as a value of its fact's struct: the keys and then the values.
pub fn row_value(row: Row) -> Result<Value, NoMemory>
    ensures { IfOk result (λ value. value ≡ row_value row) }
{
    let Row {
        fact,
        mut keys,
        values,
    } = row;
    keys.append(values)?;
    Ok(Value::Struct(fact, keys))
}

/// `query`: the first row that matches, as an optional struct.
pub fn query_of<F: FactBase>(alloc: Global, facts: &F, found: Answer<Wanted>) -> Answer<Value>
    requires keys { IfOk found (λ wanted. IsTrue (are_keys wanted.keys)) }
    ensures { (turns : ℕ) (out : Out Wanted) → Gives found turns out → Gives result turns (query_of (F.rows facts.now) out) }
{
    let wanted = found?;
    match facts.first(alloc, &wanted)? {
        Some(row) => Ok(Value::Some(Boxed::new(alloc, row_value(row)?)?)),
        None => Ok(Value::Nothing),
    }
}

/// `exists`
pub fn exists_of<F: FactBase>(facts: &F, found: Answer<Wanted>) -> Answer<Value>
    requires keys { IfOk found (λ wanted. IsTrue (are_keys wanted.keys)) }
    ensures { (turns : ℕ) (out : Out Wanted) → Gives found turns out → Gives result turns (exists_of (F.rows facts.now) out) }
{
    let wanted = found?;
    Ok(Value::Bool(facts.count_up_to(&wanted, 1) == 1))
}

/// The number against which rows are counted.
fn limit_of(limit: i64) -> Option<u64>
    ensures limit { result ≡ limit_of limit }
    ensures small { IfSome result (λ limit. limit < 2 ^ 63) }
{
    if limit < 0 { None } else { Some(limit as u64) }
}

/// How far rows are counted: one further than the limit only where the answer depends on it.
fn most_rows(op: Count, limit: u64) -> u64
    requires { limit < 2 ^ 63 }
    ensures { (rows : ℕ) → counted op limit (min result rows) ≡ counted op limit rows }
{
    match op {
        Count::AtLeast | Count::CountUpTo => limit,
        Count::AtMost | Count::Exactly => limit + 1,
    }
}

/// What so many rows answer.
fn counted(op: Count, limit: u64, rows: u64) -> Value
    requires { limit < 2 ^ 63 }
    ensures { result ≡ counted op limit rows }
{
    match op {
        Count::AtLeast => Value::Bool(limit <= rows),
        Count::AtMost => Value::Bool(rows <= limit),
        Count::Exactly => Value::Bool(rows == limit),
        Count::CountUpTo => Value::Int(limit.min(rows) as i64),
    }
}

/// `at_least`, `at_most`, `exactly` and `count_up_to`. Rows are counted no further than the answer asks.
pub fn count_of<F: FactBase>(
    facts: &F,
    op: Count,
    limit: i64,
    found: Answer<Wanted>,
) -> Answer<Value>
    requires keys { IfOk found (λ wanted. IsTrue (are_keys wanted.keys)) }
    ensures { (turns : ℕ) (out : Out Wanted) → Gives found turns out → Gives result turns (count_of (F.rows facts.now) op limit out) }
{
    let wanted = found?;
    match limit_of(limit) {
        Some(limit) => {
            let rows = facts.count_up_to(&wanted, most_rows(op, limit));
            Ok(counted(op, limit, rows))
        }
        None => Err(Stop::Stuck),
    }
}
