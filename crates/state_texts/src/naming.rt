//! Values with names in place of numbers.

ghost use Rattle.std.specs.Prelude.{◌≡◌, IfOk, zip, map};
ghost use Rattle.policy_meaning.specs.Values.{field_names};
ghost use Rattle.policy_rules.specs.WellTyped.{items_of};
ghost use Rattle.state_texts.specs.Naming.{fields_at, named, named_values, names_in};

use crate::names::{field_name, item_at, item_name, name_at, variant_name};
use base_bytes::{Arg, NoMemory, Text, Value};
use policy_ast::{Field, Item, PlacedItem};
use sqlite_items::{Boxed, Items};
use std::alloc::Global;

/// A value as a script writes it: each item number is replaced by the item's name, an ordinal by the variant's, and each field of a struct has its name.
#[cycle(naming)]
pub fn named(alloc: Global, items: &[PlacedItem], value: &Value) -> Result<Arg, NoMemory>
    ensures { IfOk result (λ arg. arg ≡ named (items_of items.now) value.now) }
{
    match value {
        Value::Int(number) => Ok(Arg::Int(*number)),
        Value::Bool(truth) => Ok(Arg::Bool(*truth)),
        Value::Str(text) => Ok(Arg::Str(text.copy(alloc)?)),
        Value::Raw(bytes) => Ok(Arg::Raw(bytes.copy(alloc)?)),
        Value::Ident(id) => Ok(Arg::Ident(*id)),
        Value::Enum(number, ordinal) => {
            let name = item_name(alloc, items, *number)?;
            let variant = variant_name(alloc, items, *number, *ordinal)?;
            Ok(Arg::Variant(name, variant))
        }
        Value::Struct(number, fields) => {
            let name = item_name(alloc, items, *number)?;
            let fields = named_struct(alloc, items, *number, fields.as_slice())?;
            Ok(Arg::Fields(name, fields))
        }
        Value::Nothing => Ok(Arg::Nothing),
        Value::Some(inner) => {
            let inner = named(alloc, items, inner.get())?;
            Ok(Arg::Some(Boxed::new(alloc, inner)?))
        }
    }
}

/// The fields of a struct of the item of this number.
#[cycle(naming)]
fn named_struct(
    alloc: Global,
    items: &[PlacedItem],
    number: u32,
    values: &[Value],
) -> Result<Items<(Text, Arg)>, NoMemory>
    ensures { IfOk result (λ all. all ≡ named_values (items_of items.now) (fields_at (items_of items.now) number) values.now) }
{
    match item_at(items, number) {
        Some(item) => named_fields(alloc, items, item, values),
        None => Ok(Items::new(alloc)),
    }
}

/// The fields of a struct of this item. There are as many as names and values stand side by side.
#[cycle(naming)]
fn named_fields(
    alloc: Global,
    items: &[PlacedItem],
    item: &Item,
    values: &[Value],
) -> Result<Items<(Text, Arg)>, NoMemory>
    ensures { IfOk result (λ all. all ≡ named_values (items_of items.now) (field_names item.now) values.now) }
{
    let mut all = Items::new(alloc);
    for i in 0..values.len() {
        let Some(name) = field_name(item, i) else {
            return Ok(all);
        };
        let name = Text::from_slice(alloc, name.as_str())?;
        all.push((name, named(alloc, items, &values[i])?))?;
    }
    Ok(all)
}

/// The keys or the values of a row, each with the name of its field.
pub fn named_row(
    alloc: Global,
    items: &[PlacedItem],
    fields: &[Field],
    values: &[Value],
) -> Result<Items<(Text, Arg)>, NoMemory>
    ensures { IfOk result (λ all. all ≡ named_values (items_of items.now) (names_in fields.now) values.now) }
{
    let mut all = Items::new(alloc);
    for i in 0..values.len() {
        let Some(name) = name_at(fields, i) else {
            return Ok(all);
        };
        let name = Text::from_slice(alloc, name.as_str())?;
        all.push((name, named(alloc, items, &values[i])?))?;
    }
    Ok(all)
}
