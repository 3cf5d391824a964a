//! The names of items, variants and fields.

ghost use Rattle.std.specs.Prelude.{◌≡◌, IfOk, map, option_and_then, option_map, slice_get, unwrap_or, []};
ghost use Rattle.std.specs.Option.{option_copied};
ghost use Rattle.policy_meaning.specs.Values.{field_names};
ghost use Rattle.policy_rules.specs.Heads.{command_fields, variants};
ghost use Rattle.policy_rules.specs.Names.{name_of};
ghost use Rattle.policy_rules.specs.WellTyped.{items_of};
ghost use Rattle.state_texts.specs.Naming.{item_name, names_in, variant_name};

use base_bytes::{NoMemory, Text};
use policy_ast::{EffectField, Field, Item, Name, PlacedItem, Section};
use policy_heads::name_of;
use sqlite_items::at;
use std::alloc::Global;

/// The item of a number.
pub fn item_at(items: &[PlacedItem], number: u32) -> Option<&Item>
    ensures { option_copied result ≡ slice_get (items_of items.now) number }
{
    match at(items, number as usize) {
        Some(placed) => Some(&placed.item),
        None => None,
    }
}

/// A copy of a name, and an empty text where there is none.
fn text_of(alloc: Global, name: Option<&Name>) -> Result<Text, NoMemory>
    ensures { IfOk result (λ text. text ≡ unwrap_or (option_copied name.entry) []) }
{
    match name {
        Some(name) => Text::from_slice(alloc, name.as_str()),
        None => Ok(Text::new(alloc)),
    }
}

pub fn item_name(alloc: Global, items: &[PlacedItem], number: u32) -> Result<Text, NoMemory>
    ensures { IfOk result (λ text. text ≡ item_name (items_of items.now) number) }
{
    match item_at(items, number) {
        Some(item) => text_of(alloc, name_of(item)),
        None => Ok(Text::new(alloc)),
    }
}

fn variant_of(item: &Item, ordinal: u16) -> Option<&Name>
    ensures { option_copied result ≡ option_and_then (λ all. slice_get all ordinal) (variants item.now) }
{
    match item {
        Item::Enum(_, variants) => at(variants.as_slice(), ordinal as usize),
        _ => None,
    }
}

pub fn variant_name(
    alloc: Global,
    items: &[PlacedItem],
    number: u32,
    ordinal: u16,
) -> Result<Text, NoMemory>
    ensures { IfOk result (λ text. text ≡ variant_name (items_of items.now) number ordinal) }
{
    match item_at(items, number) {
        Some(item) => text_of(alloc, variant_of(item, ordinal)),
        None => Ok(Text::new(alloc)),
    }
}

pub fn name_at(fields: &[Field], place: usize) -> Option<&Name>
    ensures { option_copied result ≡ slice_get (names_in fields.now) place }
{
    match at(fields, place) {
        Some(field) => Some(&field.name),
        None => None,
    }
}

fn effect_name_at(fields: &[EffectField], place: usize) -> Option<&Name>
    ensures { option_copied result ≡ slice_get (map (λ f. f.name) (map (λ f. f.field) fields.now)) place }
{
    match at(fields, place) {
        Some(field) => Some(&field.field.name),
        None => None,
    }
}

/// The fields of a command: those of its first section of fields.
fn command_fields(sections: &[Section]) -> &[Field]
    ensures { result.now ≡ command_fields sections.now }
{
    for section in sections {
        if let Section::Fields(fields) = section {
            return fields.as_slice();
        }
    }
    &[]
}

/// The name of the field of this place, in declared order.
pub fn field_name(item: &Item, place: usize) -> Option<&Name>
    ensures { option_copied result ≡ slice_get (field_names item.now) place }
{
    match item {
        Item::Struct(_, fields) => name_at(fields.as_slice(), place),
        Item::Effect(_, fields) => effect_name_at(fields.as_slice(), place),
        Item::Fact { keys, values, .. } => {
            if place < keys.len() {
                name_at(keys.as_slice(), place)
            } else {
                name_at(values.as_slice(), place - keys.len())
            }
        }
        Item::Command(_, sections) => name_at(command_fields(sections.as_slice()), place),
        _ => None,
    }
}
