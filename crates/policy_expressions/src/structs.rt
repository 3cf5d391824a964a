//! Fields of structs, and structs made of fields that are given by name.

ghost use Rattle.std.specs.Prelude.{◌≡◌, ℕ, List, map, option_and_then, slice_get, IfOk, IsTrue};
ghost use Rattle.std.specs.Option.{option_copied};
ghost use Rattle.base_bytes.specs.declared.value.Value.{Value};
ghost use Rattle.policy_meaning.specs.Environments.{bound, value_in};
ghost use Rattle.policy_meaning.specs.Finish.{bind_names};
ghost use Rattle.policy_meaning.specs.Outcomes.{Out};
ghost use Rattle.policy_meaning.specs.Values.{in_order, value_named};
ghost use Rattle.policy_rules.specs.FieldLists.{are_distinct};
ghost use Rattle.policy_rules.specs.Scopes.{names_in};
ghost use Rattle.policy_expressions.specs.working.Places.{are_same};
ghost use Rattle.policy_expressions.specs.Answers.{Gives};
ghost use Rattle.policy_expressions.specs.Forms.{field_of, struct_of};

use crate::known::Known;
use crate::stop::{Answer, Stop};
use base_bytes::{NoMemory, Value, Values};
use policy_ast::{Bind, Expr, Name};
use policy_rules::Named;
use sqlite_items::Items;
use std::alloc::Global;

/// The place of the field of this name.
fn place_named(fields: &[Named], name: &Name) -> Option<usize>
    ensures { (values : List Value) → value_named (names_in fields.now) values name.now ≡ option_and_then (slice_get values) result }
{
    for i in 0..fields.len() {
        if *name == fields[i].name {
            return Some(i);
        }
    }
    None
}

/// The value at this place.
fn value_at(mut values: Values, place: usize) -> Option<Value>
    ensures { result ≡ slice_get values place }
{
    if place < values.len() {
        Some(values.remove(place))
    } else {
        None
    }
}

/// The value of the field of this name.
fn value_named(fields: &[Named], values: Values, name: &Name) -> Option<Value>
    ensures { result ≡ value_named (names_in fields.now) values name.now }
{
    match place_named(fields, name) {
        Some(place) => value_at(values, place),
        None => None,
    }
}

/// `.name` of a struct.
pub fn field_of(known: &Known<'_>, name: &Name, found: Answer<Value>) -> Answer<Value>
    ensures { (turns : ℕ) (out : Out Value) → Gives found turns out → Gives result turns (field_of known.now name.now out) }
{
    match found? {
        Value::Struct(number, values) => {
            match value_named(known.fields_at(number), values, name) {
                Some(value) => Ok(value),
                None => Err(Stop::Stuck),
            }
        }
        _ => Err(Stop::Stuck),
    }
}

/// The value that is bound to a name: the first.
fn value_bound<'a>(binds: &[Bind<Expr>], values: &'a [Value], name: &Name) -> Option<&'a Value>
    ensures { option_copied result ≡ value_in (bound (bind_names binds.now) values.now) name.now }
{
    match binds {
        [] => None,
        [bind, binds @ ..] => match values {
            [] => None,
            [value, values @ ..] => {
                if *name == bind.name {
                    Some(value)
                } else {
                    value_bound(binds, values, name)
                }
            }
        },
    }
}

/// Copies of the values that are bound to the fields, in declared order.
fn values_copied(
    alloc: Global,
    fields: &[Named],
    binds: &[Bind<Expr>],
    values: &[Value],
) -> Result<Option<Values>, NoMemory>
    ensures { IfOk result (λ found. found ≡ in_order (names_in fields.now) (bound (bind_names binds.now) values.now)) }
{
    let mut all = Items::new(alloc);
    for field in fields {
        match value_bound(binds, values, &field.name) {
            Some(value) => all.push(value.copy(alloc)?)?,
            None => return Ok(None),
        }
    }
    Ok(Some(all))
}

/// Whether just the fields are bound, in declared order.
fn are_in_place(fields: &[Named], binds: &[Bind<Expr>]) -> bool
    ensures { result ≡ are_same (names_in fields.now) (bind_names binds.now) }
{
    match fields {
        [] => match binds {
            [] => true,
            [_, ..] => false,
        },
        [field, fields @ ..] => match binds {
            [] => false,
            [bind, binds @ ..] => field.name == bind.name && are_in_place(fields, binds),
        },
    }
}

/// The values that are bound to the fields, in declared order. Values that stand so already are moved, others are copied.
pub(crate) fn values_in_order(
    alloc: Global,
    fields: &[Named],
    binds: &[Bind<Expr>],
    values: Values,
) -> Result<Option<Values>, NoMemory>
    requires distinct { IsTrue (are_distinct (names_in fields.now)) }
    ensures { IfOk result (λ found. found ≡ in_order (names_in fields.now) (bound (bind_names binds.now) values)) }
{
    if values.len() == fields.len() && are_in_place(fields, binds) {
        return Ok(Some(values));
    }
    values_copied(alloc, fields, binds, values.as_slice())
}

/// A struct of the values that are bound to its fields, in any order.
pub fn struct_of(
    alloc: Global,
    known: &Known<'_>,
    name: &Name,
    binds: &[Bind<Expr>],
    found: Answer<Values>,
) -> Answer<Value>
    ensures { (turns : ℕ) (out : Out (List Value)) → Gives found turns out → Gives result turns (struct_of known.now name.now (bind_names binds.now) out) }
{
    let values = found?;
    let Some(number) = known.number_named(name) else {
        return Err(Stop::Stuck);
    };
    let Some(fields) = known.struct_named(name) else {
        return Err(Stop::Stuck);
    };
    match values_in_order(alloc, fields, binds, values)? {
        Some(fields) => Ok(Value::Struct(number, fields)),
        None => Err(Stop::Stuck),
    }
}
