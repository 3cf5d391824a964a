//! The fields that an argument gives, held against those of the item that its name means.

ghost use Rattle.std.specs.Prelude.{◌≡◌, ◌≤◌, ◌<◌, length, map, option_and_then, option_map, position, slice_get, get_or, IfSome, []};
ghost use Rattle.std.specs.List.{list_all};
ghost use Rattle.std.specs.Option.{option_copied};
ghost use Rattle.std.specs.Str.{bytes_eq};
ghost use Rattle.policy_meaning.specs.Resolving.{name_each_once};
ghost use Rattle.policy_meaning.specs.Values.{field_names};
ghost use Rattle.policy_meaning.specs.working.Resolutions.{given_names, item_at, names_at, types_at, types_for};
ghost use Rattle.policy_rules.specs.FieldLists.{are_distinct};
ghost use Rattle.policy_rules.specs.Names.{is_among};
ghost use Rattle.policy_rules.specs.Shapes.{shapes_of};
ghost use Rattle.policy_rules.specs.WellTyped.{IsWellTyped, items_of};

use crate::names::is_named;
use crate::shaping::command_fields;
use base_bytes::{Arg, Shape, Shapes, Text, Ty};
use policy_ast::{EffectField, Field, Item, Name, Policy};
use sqlite_items::at;

/// The item of this number, where the name is its own. In a well-typed policy the name then means it.
pub fn item_at<'a>(policy: &'a Policy, number: u32, name: &Text) -> Option<&'a Item>
    requires well_typed { IsWellTyped policy.now }
    ensures { option_copied result ≡ item_at (items_of policy.now) number name.now }
{
    match at(policy.items(), number as usize) {
        Some(placed) => {
            if is_named(&placed.item, name.as_slice()) {
                Some(&placed.item)
            } else {
                None
            }
        }
        None => None,
    }
}

/// The types of the fields of the item of this number, where the name means it, it is a struct type, and each of its fields is given once.
pub fn types_for<'a>(
    policy: &Policy,
    shapes: &'a Shapes,
    number: u32,
    name: &Text,
    given: &[(Text, Arg)],
) -> Option<&'a [Ty]>
    requires well_typed { IsWellTyped policy.now }
    requires shapes { shapes.now ≡ shapes_of (items_of policy.now) }
    ensures { option_copied result ≡ types_for (items_of policy.now) number name.now given.now }
{
    match item_at(policy, number, name) {
        Some(item) => match types_at(shapes, number) {
            Some(types) => {
                if are_each_once(item, types.len(), given) {
                    Some(types)
                } else {
                    None
                }
            }
            None => None,
        },
        None => None,
    }
}

/// The types of the fields of the item of this number, where it is a struct type.
fn types_at(shapes: &Shapes, number: u32) -> Option<&[Ty]>
    ensures { option_copied result ≡ types_at shapes.now number }
{
    match shapes.at(number) {
        Some(Shape::Fields(types)) => Some(types.as_slice()),
        _ => None,
    }
}

/// Whether the names that are given are those of the item's fields, each once. More names than fields are none, so the work on what is given is bounded
/// by the fields.
fn are_each_once(item: &Item, fields: usize, given: &[(Text, Arg)]) -> bool
    requires fields { fields ≡ length (field_names item.now) }
    ensures { result ≡ name_each_once (field_names item.now) (given_names given.now) }
{
    if given.len() > fields {
        return false;
    }
    are_distinct(given) && are_fields(item, fields, given) && are_given(item, fields, given)
}

fn are_distinct(given: &[(Text, Arg)]) -> bool
    ensures { result ≡ are_distinct (given_names given.now) }
{
    for i in 0..given.len() {
        if is_given(&given[i + 1..], given[i].0.as_slice()) {
            return false;
        }
    }
    true
}

/// Whether each given name is one of the fields'.
fn are_fields(item: &Item, fields: usize, given: &[(Text, Arg)]) -> bool
    requires fields { fields ≡ length (field_names item.now) }
    ensures { result ≡ list_all (λ name. is_among name (field_names item.now)) (given_names given.now) }
{
    for (name, _) in given {
        if !has_field(item, fields, name) {
            return false;
        }
    }
    true
}

/// Whether each field is given.
fn are_given(item: &Item, fields: usize, given: &[(Text, Arg)]) -> bool
    requires fields { fields ≡ length (field_names item.now) }
    ensures { result ≡ list_all (λ field. is_among field (given_names given.now)) (field_names item.now) }
{
    for i in 0..fields {
        if !is_field_given(item, i, given) {
            return false;
        }
    }
    true
}

fn is_field_given(item: &Item, place: usize, given: &[(Text, Arg)]) -> bool
    requires within { place < length (field_names item.now) }
    ensures { result ≡ is_among (get_or (field_names item.now) place []) (given_names given.now) }
{
    match field_name(item, place) {
        Some(name) => is_given(given, name.as_str().as_bytes()),
        None => false,
    }
}

fn has_field(item: &Item, fields: usize, name: &Text) -> bool
    requires fields { fields ≡ length (field_names item.now) }
    ensures { result ≡ is_among name.now (field_names item.now) }
{
    for i in 0..fields {
        if is_field(item, i, name) {
            return true;
        }
    }
    false
}

fn is_field(item: &Item, place: usize, name: &Text) -> bool
    requires within { place < length (field_names item.now) }
    ensures { result ≡ bytes_eq name.now (get_or (field_names item.now) place []) }
{
    match field_name(item, place) {
        Some(own) => name.as_slice() == own.as_str().as_bytes(),
        None => false,
    }
}

fn is_given(given: &[(Text, Arg)], name: &[u8]) -> bool
    ensures { result ≡ is_among name.now (given_names given.now) }
{
    for (other, _) in given {
        if name == other.as_slice() {
            return true;
        }
    }
    false
}

/// Where the argument for a field of the item of this number stands.
pub fn place_of_field(
    policy: &Policy,
    number: u32,
    place: usize,
    given: &[(Text, Arg)],
) -> Option<usize>
    ensures place { result ≡ option_and_then (λ name. position (λ g. bytes_eq name g.0) given.now) (slice_get (names_at (items_of policy.now) number) place) }
    ensures within { IfSome result (λ place. place < length given.now) }
{
    match at(policy.items(), number as usize) {
        Some(placed) => match field_name(&placed.item, place) {
            Some(name) => place_of(given, name),
            None => None,
        },
        None => None,
    }
}

fn place_of(given: &[(Text, Arg)], name: &Name) -> Option<usize>
    ensures place { result ≡ position (λ g. bytes_eq name.now g.0) given.now }
    ensures within { IfSome result (λ place. place < length given.now) }
{
    given
        .iter()
        .position(|g| name.as_str().as_bytes() == g.0.as_slice())
}

/// The name of the field of this place, in declared order.
fn field_name(item: &Item, place: usize) -> Option<&Name>
    ensures { option_copied result ≡ slice_get (field_names item.now) place }
{
    match item {
        Item::Struct(_, fields) => name_at(fields.as_slice(), place),
        Item::Effect(_, fields) => effect_name_at(fields.as_slice(), place),
        Item::Fact { keys, values, .. } => {
            if place < keys.len() {
                name_at(keys.as_slice(), place)
            } else {
                name_at(values.as_slice(), place - keys.len())
            }
        }
        Item::Command(_, sections) => name_at(command_fields(sections.as_slice()), place),
        _ => None,
    }
}

fn name_at(fields: &[Field], place: usize) -> Option<&Name>
    ensures { option_copied result ≡ slice_get (map (λ f. f.name) fields.now) place }
{
    match at(fields, place) {
        Some(field) => Some(&field.name),
        None => None,
    }
}

fn effect_name_at(fields: &[EffectField], place: usize) -> Option<&Name>
    ensures { option_copied result ≡ slice_get (map (λ f. f.name) (map (λ f. f.field) fields.now)) place }
{
    match at(fields, place) {
        Some(field) => Some(&field.field.name),
        None => None,
    }
}
