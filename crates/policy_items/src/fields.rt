ghost use Rattle.std.specs.Prelude.{◌≡◌, true, map, not, IfOk};
ghost use Rattle.std.specs.Bool.{OnTrue};
ghost use Rattle.std.specs.List.{list_all};
ghost use Rattle.policy_rules.specs.FieldLists.{are_distinct};
ghost use Rattle.policy_rules.specs.Heads.{type_exists};
ghost use Rattle.policy_rules.specs.Items.{are_fact_fields, are_fields, are_parameters, effect_fields, field_names, is_key_type};
ghost use Rattle.policy_rules.specs.Names.{is_among};
ghost use Rattle.policy_rules.specs.Scopes.{let_names};

use base_bytes::NoMemory;
use policy_ast::{EffectField, Field, FieldType, Name};
use policy_heads::Heads;
use std::alloc::Global;

/// So many fields may stand in a list.
const MOST: usize = 64;

/// Whether one of the fields has this name.
fn is_field_name(fields: &[&Field], name: &Name) -> bool
    ensures { result ≡ is_among name.now (field_names (map (λ f. f.now) fields.now)) }
{
    for field in fields {
        if *name == field.name {
            return true;
        }
    }
    false
}

/// Whether no two fields have one name. It is asked of no more fields than may stand in a list.
fn are_distinct(fields: &[&Field]) -> bool
    ensures { result ≡ are_distinct (field_names (map (λ f. f.now) fields.now)) }
{
    for place in 0..fields.len() {
        if is_field_name(&fields[place + 1..], &fields[place].name) {
            return false;
        }
    }
    true
}

/// Whether all that the types of the fields name is there.
fn types_exist(heads: &Heads<'_>, fields: &[&Field]) -> bool
    ensures { result ≡ list_all (λ f. type_exists heads.now f.field_type) (map (λ f. f.now) fields.now) }
{
    for field in fields {
        if !heads.type_exists(&field.field_type) {
            return false;
        }
    }
    true
}

fn are_field_refs(heads: &Heads<'_>, fields: &[&Field]) -> bool
    ensures { result ≡ are_fields heads.now (map (λ f. f.now) fields.now) }
{
    fields.len() <= MOST && are_distinct(fields) && types_exist(heads, fields)
}

fn refs<'a>(alloc: Global, fields: &'a [Field]) -> Result<Vec<&'a Field>, NoMemory>
    ensures { IfOk result (λ refs. map (λ f. f.now) refs.items ≡ fields.now) }
{
    let mut refs = Vec::new(alloc);
    for field in fields {
        refs.push(field)?;
    }
    Ok(refs)
}

fn effect_refs<'a>(alloc: Global, fields: &'a [EffectField]) -> Result<Vec<&'a Field>, NoMemory>
    ensures { IfOk result (λ refs. map (λ f. f.now) refs.items ≡ effect_fields fields.now) }
{
    let mut refs = Vec::new(alloc);
    for field in fields {
        refs.push(&field.field)?;
    }
    Ok(refs)
}

/// At most 64 fields, with distinct names and types that exist.
pub fn are_fields(alloc: Global, heads: &Heads<'_>, fields: &[Field]) -> Result<bool, NoMemory>
    ensures { IfOk result (λ are. are ≡ are_fields heads.now fields.now) }
{
    let refs = refs(alloc, fields)?;
    Ok(are_field_refs(heads, refs.as_slice()))
}

/// The same of an effect's fields.
pub fn are_effect_fields(
    alloc: Global,
    heads: &Heads<'_>,
    fields: &[EffectField],
) -> Result<bool, NoMemory>
    ensures { IfOk result (λ are. are ≡ are_fields heads.now (effect_fields fields.now)) }
{
    let refs = effect_refs(alloc, fields)?;
    Ok(are_field_refs(heads, refs.as_slice()))
}

fn is_no_let(heads: &Heads<'_>, fields: &[Field]) -> bool
    ensures { result ≡ list_all (λ name. not (is_among name (let_names heads.now))) (field_names fields.now) }
{
    for field in fields {
        if heads.is_let_name(&field.name) {
            return false;
        }
    }
    true
}

/// Parameters are fields, whose names also differ from those of the policy's `let`s.
pub fn are_parameters(alloc: Global, heads: &Heads<'_>, fields: &[Field]) -> Result<bool, NoMemory>
    ensures are { IfOk result (λ are. are ≡ are_parameters heads.now fields.now) }
    ensures distinct { IfOk result (λ are. OnTrue are (are_distinct (field_names fields.now) ≡ true)) }
{
    Ok(are_fields(alloc, heads, fields)? && is_no_let(heads, fields))
}

/// Whether the type may be that of a key.
fn is_key_type(t: &FieldType) -> bool
    ensures { result ≡ is_key_type t.now }
{
    match t {
        FieldType::Struct(_) => false,
        FieldType::Optional(_) => false,
        _ => true,
    }
}

fn are_key_types(keys: &[Field]) -> bool
    ensures { result ≡ list_all (λ f. is_key_type f.field_type) keys.now }
{
    for key in keys {
        if !is_key_type(&key.field_type) {
            return false;
        }
    }
    true
}

/// Whether no value has the name of a key. It is asked of no more keys than may stand in a list.
fn is_no_key(keys: &[&Field], values: &[Field]) -> bool
    ensures { result ≡ list_all (λ name. not (is_among name (field_names (map (λ f. f.now) keys.now)))) (field_names values.now) }
{
    for value in values {
        if is_field_name(keys, &value.name) {
            return false;
        }
    }
    true
}

/// A fact's keys and values are two lists of fields; keys have simple types, and no value has the name of a key.
pub fn are_fact_fields(
    alloc: Global,
    heads: &Heads<'_>,
    keys: &[Field],
    values: &[Field],
) -> Result<bool, NoMemory>
    ensures { IfOk result (λ are. are ≡ are_fact_fields heads.now keys.now values.now) }
{
    if !are_fields(alloc, heads, keys)? || !are_fields(alloc, heads, values)? {
        return Ok(false);
    }
    let refs = refs(alloc, keys)?;
    Ok(are_key_types(keys) && is_no_key(refs.as_slice(), values))
}
