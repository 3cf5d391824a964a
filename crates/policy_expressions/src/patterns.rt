//! The rows that a pattern asks for, by the values of its expressions.

ghost use Rattle.std.specs.Prelude.{◌≡◌, ℕ, List, Option, map, IfOk, IsTrue, OnOk};
ghost use Rattle.std.specs.Option.{option_copied};
ghost use Rattle.base_bytes.specs.KeyOrder.{is_key};
ghost use Rattle.base_bytes.specs.declared.value.Value.{Value};
ghost use Rattle.fact_store.specs.Rows.{are_keys};
ghost use Rattle.policy_meaning.specs.Environments.{value_in};
ghost use Rattle.policy_meaning.specs.Outcomes.{Out};
ghost use Rattle.policy_meaning.specs.Patterns.{before_gap, named_values};
ghost use Rattle.policy_rules.specs.Expressions.{value_part};
ghost use Rattle.policy_rules.specs.Scopes.{names_in};
ghost use Rattle.policy_expressions.specs.Answers.{Gives};
ghost use Rattle.policy_expressions.specs.Forms.{pattern_of};
ghost use Rattle.policy_expressions.specs.working.Gaps.{put_front};

use crate::known::Known;
use crate::stop::{Answer, Stop};
use base_bytes::{NoMemory, Value, Values};
use fact_store::Wanted;
use policy_ast::{Expr, Free, Name, Pattern};
use policy_rules::Named;
use sqlite_items::Items;
use std::alloc::Global;

/// Whether the value may be a key.
fn is_key(value: &Value) -> bool
    ensures { result ≡ is_key value.now }
{
    match value {
        Value::Struct(_, _) | Value::Nothing | Value::Some(_) => false,
        _ => true,
    }
}

/// Whether each of the values may be a key.
pub(crate) fn are_keys(values: &[Value]) -> bool
    ensures { result ≡ are_keys values.now }
{
    for value in values {
        if !is_key(value) {
            return false;
        }
    }
    true
}

/// One more value in front of those behind it, which stand the last first. Behind a `?` none counts.
fn put_front(behind: &mut Vec<Value>, value: Option<Value>) -> Result<(), NoMemory>
    ensures { OnOk result (behind.new.items ≡ put_front behind.old.items value) }
{
    match value {
        Some(value) => behind.push(value)?,
        None => behind.clear(),
    }
    Ok(())
}

/// The values before the first `?`.
fn before_gap(alloc: Global, mut values: Items<Option<Value>>) -> Result<Values, NoMemory>
    ensures { IfOk result (λ all. all ≡ before_gap values) }
{
    let mut behind = Vec::new(alloc);
    while let Some(value) = values.pop() {
        put_front(&mut behind, value)?;
    }
    behind.reverse();
    Ok(Items::from_vec(behind))
}

/// The fields that a pattern names behind its keys.
fn value_part(pattern: &Pattern<Expr>) -> &[Free<Expr>]
    ensures { result.now ≡ value_part pattern.now.values }
{
    match &pattern.values {
        Some(values) => values.as_slice(),
        None => &[],
    }
}

/// The value that a pattern gives to a name: the first that is there.
fn value_given<'a>(
    frees: &[Free<Expr>],
    values: &'a [Option<Value>],
    name: &Name,
) -> Option<&'a Value>
    ensures { option_copied result ≡ value_in (named_values (map (λ f. f.name) frees.now) values.now) name.now }
{
    match frees {
        [] => None,
        [free, frees @ ..] => match values {
            [] => None,
            [None, values @ ..] => value_given(frees, values, name),
            [Some(value), values @ ..] => {
                if *name == free.name {
                    Some(value)
                } else {
                    value_given(frees, values, name)
                }
            }
        },
    }
}

/// Of each field the value that a pattern gives to it, or none.
fn values_wanted(
    alloc: Global,
    fields: &[Named],
    frees: &[Free<Expr>],
    values: &[Option<Value>],
) -> Result<Items<Option<Value>>, NoMemory>
    ensures { IfOk result (λ all. all ≡ map (value_in (named_values (map (λ f. f.name) frees.now) values.now)) (names_in fields.now)) }
{
    let mut all = Items::new(alloc);
    for field in fields {
        match value_given(frees, values, &field.name) {
            Some(value) => all.push(Some(value.copy(alloc)?))?,
            None => all.push(None)?,
        }
    }
    Ok(all)
}

/// The rows that a pattern asks for, where its keys have their values. A `?` has none.
pub fn pattern_of(
    alloc: Global,
    known: &Known<'_>,
    pattern: &Pattern<Expr>,
    keys: Items<Option<Value>>,
    found: Answer<Items<Option<Value>>>,
) -> Answer<Wanted>
    ensures gives { (turns : ℕ) (out : Out (List (Option Value))) → Gives found turns out → Gives result turns (pattern_of known.now pattern.now keys out) }
    ensures keys { IfOk result (λ wanted. IsTrue (are_keys wanted.keys)) }
{
    let values = found?;
    let Some(fact) = known.number_named(&pattern.fact) else {
        return Err(Stop::Stuck);
    };
    let Some(head) = known.heads().fact_named(&pattern.fact) else {
        return Err(Stop::Stuck);
    };
    let keys = before_gap(alloc, keys)?;
    if !are_keys(keys.as_slice()) {
        return Err(Stop::Stuck);
    }
    let values = values_wanted(alloc, head.values, value_part(pattern), values.as_slice())?;
    Ok(Wanted { fact, keys, values })
}
