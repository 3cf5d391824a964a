//! The writes and effects of `finish`, by the values of their expressions.

ghost use Rattle.std.specs.Prelude.{◌≡◌, ℕ, List, IsTrue, IfOk};
ghost use Rattle.base_bytes.specs.declared.value.Value.{Value};
ghost use Rattle.fact_store.specs.Rows.{are_keys};
ghost use Rattle.policy_meaning.specs.Finish.{bind_names, delete_of};
ghost use Rattle.policy_meaning.specs.Outcomes.{Out, or_stuck};
ghost use Rattle.policy_expressions.specs.Answers.{Gives};
ghost use Rattle.policy_expressions.specs.Forms.{created_of, deleted_of, emitted_of, updated_of};

use crate::change::Change;
use crate::known::Known;
use crate::patterns::are_keys;
use crate::stop::{Answer, Stop};
use crate::structs::values_in_order;
use base_bytes::{Value, Values};
use fact_store::{Row, Wanted};
use policy_ast::{Bind, Expr, Name};
use policy_meaning::Effect;
use std::alloc::Global;

/// `create`, where the keys have their values.
pub fn create_of(
    alloc: Global,
    known: &Known<'_>,
    fact: &Name,
    keys: Values,
    binds: &[Bind<Expr>],
    found: Answer<Values>,
) -> Answer<Change>
    ensures { (turns : ℕ) (out : Out (List Value)) → Gives found turns out → Gives result turns (created_of known.now fact.now keys (bind_names binds.now) out) }
{
    let values = found?;
    let Some(fact_number) = known.number_named(fact) else {
        return Err(Stop::Stuck);
    };
    let Some(head) = known.fact_named(fact) else {
        return Err(Stop::Stuck);
    };
    let Some(values) = values_in_order(alloc, head.values, binds, values)? else {
        return Err(Stop::Stuck);
    };
    if !are_keys(keys.as_slice()) {
        return Err(Stop::Stuck);
    }
    Ok(Change::create(Row {
        fact: fact_number,
        keys,
        values,
    }))
}

/// `update`, where it is known which row is wanted.
pub fn update_of(
    alloc: Global,
    known: &Known<'_>,
    fact: &Name,
    old: Wanted,
    binds: &[Bind<Expr>],
    found: Answer<Values>,
) -> Answer<Change>
    requires keys { IsTrue (are_keys old.keys) }
    ensures { (turns : ℕ) (out : Out (List Value)) → Gives found turns out → Gives result turns (updated_of known.now fact.now old (bind_names binds.now) out) }
{
    let values = found?;
    let Some(head) = known.fact_named(fact) else {
        return Err(Stop::Stuck);
    };
    match values_in_order(alloc, head.values, binds, values)? {
        Some(values) => Ok(Change::update(old, values)),
        None => Err(Stop::Stuck),
    }
}

/// `delete`
pub fn delete_of(known: &Known<'_>, fact: &Name, found: Answer<Values>) -> Answer<Change>
    ensures { (turns : ℕ) (out : Out (List Value)) → Gives found turns out → Gives result turns (deleted_of known.now fact.now out) }
{
    let keys = found?;
    let Some(fact_number) = known.number_named(fact) else {
        return Err(Stop::Stuck);
    };
    if !are_keys(keys.as_slice()) {
        return Err(Stop::Stuck);
    }
    Ok(Change::delete(fact_number, keys))
}

/// `emit`
pub fn emit_of(found: Answer<Value>) -> Answer<Change>
    ensures { (turns : ℕ) (out : Out Value) → Gives found turns out → Gives result turns (emitted_of out) }
{
    match found? {
        Value::Struct(effect, fields) => Ok(Change::emit(Effect { effect, fields })),
        _ => Err(Stop::Stuck),
    }
}
