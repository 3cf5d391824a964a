//! What each operation makes of the values of its operands. An operand that ended early ends the operation so.

ghost use Rattle.std.specs.Prelude.{◌≡◌, ℕ, option_map, IfOk};
ghost use Rattle.base_bytes.specs.declared.value.Value.{Value};
ghost use Rattle.base_bytes.specs.declared.value.Value.TheVariants as value;
ghost use Rattle.fact_store.specs.Sameness.{same_value};
ghost use Rattle.policy_meaning.specs.Outcomes.{Out};
ghost use Rattle.policy_meaning.specs.Values.{calculated, compared, number, optional_of};
ghost use Rattle.policy_expressions.specs.Answers.{Gives};
ghost use Rattle.policy_expressions.specs.Forms.{calculation_of, check_of, compare_of, presence_of, some_of, truth_of, unary_of};
ghost use Rattle.policy_expressions.specs.working.Orders.{order_of};

use crate::stop::{Answer, Stop};
use base_bytes::{NoMemory, Value};
use policy_ast::{Arithmetic, Comparison, Presence, Unary};
use policy_meaning::FaultKind;
use sqlite_items::Boxed;
use std::alloc::Global;

/// The truth of a value.
pub fn truth_of(found: Answer<Value>) -> Answer<bool>
    ensures { (turns : ℕ) (out : Out Value) → Gives found turns out → Gives result turns (truth_of out) }
{
    match found? {
        Value::Bool(truth) => Ok(truth),
        _ => Err(Stop::Stuck),
    }
}

/// Goes on where the value is true, and is a failed check where it is false.
pub fn check_of(found: Answer<Value>) -> Answer<()>
    ensures { (turns : ℕ) (out : Out Value) → Gives found turns out → Gives result turns (check_of out) }
{
    match found? {
        Value::Bool(true) => Ok(()),
        Value::Bool(false) => Err(Stop::Check),
        _ => Err(Stop::Stuck),
    }
}

/// `is Some` and `is None`
pub fn presence_of(op: Presence, found: Answer<Value>) -> Answer<Value>
    ensures { (turns : ℕ) (out : Out Value) → Gives found turns out → Gives result turns (presence_of op out) }
{
    match found? {
        Value::Some(_) => Ok(Value::Bool(op == Presence::Some)),
        Value::Nothing => Ok(Value::Bool(op == Presence::None)),
        _ => Err(Stop::Stuck),
    }
}

/// `!`, `unwrap` and `check_unwrap`
pub fn unary_of(op: Unary, found: Answer<Value>) -> Answer<Value>
    ensures { (turns : ℕ) (out : Out Value) → Gives found turns out → Gives result turns (unary_of op out) }
{
    match found? {
        Value::Bool(truth) => match op {
            Unary::Not => Ok(Value::Bool(!truth)),
            Unary::Unwrap | Unary::CheckUnwrap => Err(Stop::Stuck),
        },
        Value::Some(inner) => match op {
            Unary::Not => Err(Stop::Stuck),
            Unary::Unwrap | Unary::CheckUnwrap => Ok(inner.into_inner()),
        },
        Value::Nothing => match op {
            Unary::Not => Err(Stop::Stuck),
            Unary::Unwrap => Err(Stop::Fault(FaultKind::Unwrap)),
            Unary::CheckUnwrap => Err(Stop::Check),
        },
        _ => Err(Stop::Stuck),
    }
}

/// `Some`
pub fn some_of(alloc: Global, found: Answer<Value>) -> Answer<Value>
    ensures { (turns : ℕ) (out : Out Value) → Gives found turns out → Gives result turns (some_of out) }
{
    let inner = found?;
    Ok(Value::Some(Boxed::new(alloc, inner)?))
}

/// The number that a value is.
fn number(of: &Value) -> Option<i64>
    ensures { result ≡ number of.now }
{
    match of {
        Value::Int(number) => Some(*number),
        _ => None,
    }
}

fn is_equal(first: &Value, second: &Value) -> bool
    ensures { result ≡ same_value first.now second.now }
{
    first.is_same(second)
}

/// Whether two numbers are in this order, and false of the comparisons that are none.
fn is_in_order(op: Comparison, m: i64, n: i64) -> bool
    ensures { result ≡ order_of op m n }
{
    match op {
        Comparison::Equal | Comparison::NotEqual => false,
        Comparison::Less => m < n,
        Comparison::LessOrEqual => m <= n,
        Comparison::Greater => m > n,
        Comparison::GreaterOrEqual => m >= n,
    }
}

/// Whether the comparison holds, and None where the values have no order.
fn compared(op: Comparison, first: &Value, second: &Value) -> Option<bool>
    ensures { result ≡ compared op first.now second.now }
{
    match op {
        Comparison::Equal => Some(is_equal(first, second)),
        Comparison::NotEqual => Some(!is_equal(first, second)),
        _ => match (number(first), number(second)) {
            (Some(m), Some(n)) => Some(is_in_order(op, m, n)),
            _ => None,
        },
    }
}

/// Comparisons, where the first operand has its value.
pub fn compare_of(op: Comparison, first: Value, second: Answer<Value>) -> Answer<Value>
    ensures { (turns : ℕ) (out : Out Value) → Gives second turns out → Gives result turns (compare_of op first out) }
{
    let second = second?;
    match compared(op, &first, &second) {
        Some(holds) => Ok(Value::Bool(holds)),
        None => Err(Stop::Stuck),
    }
}

/// An optional number: `Some` of it where the operation stayed in range.
fn optional(alloc: Global, number: Option<i64>) -> Result<Value, NoMemory>
    ensures { IfOk result (λ v. v ≡ optional_of (option_map value.Int number)) }
{
    match number {
        Some(number) => Ok(Value::Some(Boxed::new(alloc, Value::Int(number))?)),
        None => Ok(Value::Nothing),
    }
}

fn calculated(alloc: Global, op: Arithmetic, m: i64, n: i64) -> Result<Value, NoMemory>
    ensures { IfOk result (λ v. v ≡ calculated op m n) }
{
    match op {
        Arithmetic::Add => optional(alloc, m.checked_add(n)),
        Arithmetic::Sub => optional(alloc, m.checked_sub(n)),
        Arithmetic::SaturatingAdd => Ok(Value::Int(m.saturating_add(n))),
        Arithmetic::SaturatingSub => Ok(Value::Int(m.saturating_sub(n))),
    }
}

/// The operations on two numbers, where the first has its value.
pub fn calculation_of(
    alloc: Global,
    op: Arithmetic,
    first: Value,
    second: Answer<Value>,
) -> Answer<Value>
    ensures { (turns : ℕ) (out : Out Value) → Gives second turns out → Gives result turns (calculation_of op first out) }
{
    let second = second?;
    match (number(&first), number(&second)) {
        (Some(m), Some(n)) => Ok(calculated(alloc, op, m, n)?),
        _ => Err(Stop::Stuck),
    }
}
