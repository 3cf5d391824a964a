//! The shapes of a policy's items, which the types of values go by.

ghost use Rattle.std.specs.Prelude.{◌≡◌, ◌++◌, ◌<◌, ◌^◌, length, map, IfOk, OnOk, Some};
ghost use Rattle.policy_rules.specs.Heads.{command_fields, enum_named, struct_named};
ghost use Rattle.policy_rules.specs.Names.{number_named};
ghost use Rattle.policy_rules.specs.Shapes.{field_value_types, numbered, shape_of, shapes_of, value_type_of};
ghost use Rattle.policy_rules.specs.Types.{written_type};
ghost use Rattle.policy_rules.specs.WellTyped.{items_of};
ghost use Rattle.base_bytes.specs.declared.ty.Ty.TheVariants as ty;

use base_bytes::{NoMemory, Shape, Shapes, Ty};
use policy_ast::{EffectField, Field, FieldType, Item, Name, PlacedItem, Policy, Section};
use policy_heads::Heads;
use sqlite_items::{Boxed, Items};
use std::alloc::Global;

/// One shape for each item of the policy, in their order. A type name that names no such item counts as `Never`.
pub fn shapes(alloc: Global, policy: &Policy) -> Result<Shapes, NoMemory>
    ensures { IfOk result (λ shapes. shapes ≡ shapes_of (items_of policy.now)) }
{
    let heads = Heads::new(alloc, policy)?;
    let items = item_shapes(alloc, &heads, policy.items())?;
    Ok(Shapes { items })
}

fn item_shapes(alloc: Global, heads: &Heads, items: &[PlacedItem]) -> Result<Items<Shape>, NoMemory>
    requires { length heads.now < 2 ^ 32 }
    ensures { IfOk result (λ shapes. shapes ≡ map (shape_of heads.now) (items_of items.now)) }
{
    let mut shapes = Items::new(alloc);
    for placed in items {
        shapes.push(item_shape(alloc, heads, &placed.item)?)?;
    }
    Ok(shapes)
}

fn item_shape(alloc: Global, heads: &Heads, item: &Item) -> Result<Shape, NoMemory>
    requires { length heads.now < 2 ^ 32 }
    ensures { IfOk result (λ shape. shape ≡ shape_of heads.now item.now) }
{
    let mut types = Items::new(alloc);
    match item {
        Item::Enum(_, variants) => return Ok(Shape::Variants(variants.as_slice().len() as u32)),
        Item::Struct(_, fields) => push_types(alloc, heads, fields.as_slice(), &mut types)?,
        Item::Effect(_, fields) => push_effect_types(alloc, heads, fields.as_slice(), &mut types)?,
        Item::Fact { keys, values, .. } => {
            push_types(alloc, heads, keys.as_slice(), &mut types)?;
            push_types(alloc, heads, values.as_slice(), &mut types)?;
        }
        Item::Command(_, sections) => {
            push_types(
                alloc,
                heads,
                command_fields(sections.as_slice()),
                &mut types,
            )?;
        }
        _ => return Ok(Shape::Neither),
    }
    Ok(Shape::Fields(types))
}

/// The fields of a command: those of its first section of fields.
pub fn command_fields(sections: &[Section]) -> &[Field]
    ensures { result.now ≡ command_fields sections.now }
{
    for section in sections {
        if let Section::Fields(fields) = section {
            return fields.as_slice();
        }
    }
    &[]
}

/// Adds the types of the fields, in their order.
fn push_types(
    alloc: Global,
    heads: &Heads,
    fields: &[Field],
    types: &mut Items<Ty>,
) -> Result<(), NoMemory>
    requires { length heads.now < 2 ^ 32 }
    ensures { OnOk result (types.new ≡ types.old ++ field_value_types heads.now fields.now) }
{
    for field in fields {
        types.push(value_type(alloc, heads, &field.field_type)?)?;
    }
    Ok(())
}

fn push_effect_types(
    alloc: Global,
    heads: &Heads,
    fields: &[EffectField],
    types: &mut Items<Ty>,
) -> Result<(), NoMemory>
    requires { length heads.now < 2 ^ 32 }
    ensures { OnOk result (types.new ≡ types.old ++ field_value_types heads.now (map (λ f. f.field) fields.now)) }
{
    for field in fields {
        types.push(value_type(alloc, heads, &field.field.field_type)?)?;
    }
    Ok(())
}

/// The type of the values of a written type.
pub fn value_type(alloc: Global, heads: &Heads, t: &FieldType) -> Result<Ty, NoMemory>
    requires { length heads.now < 2 ^ 32 }
    ensures { IfOk result (λ it. it ≡ value_type_of heads.now (written_type t.now)) }
{
    match t {
        FieldType::Int => Ok(Ty::Int),
        FieldType::Bool => Ok(Ty::Bool),
        FieldType::Str => Ok(Ty::Str),
        FieldType::Raw => Ok(Ty::Raw),
        FieldType::Ident => Ok(Ty::Ident),
        FieldType::Enum(name) => Ok(enum_type(heads, name)),
        FieldType::Struct(name) => Ok(struct_type(heads, name)),
        FieldType::Optional(inner) => {
            let inner = value_type(alloc, heads, inner.get())?;
            Ok(Ty::Optional(Boxed::new(alloc, inner)?))
        }
    }
}

fn enum_type(heads: &Heads, name: &Name) -> Ty
    requires { length heads.now < 2 ^ 32 }
    ensures { result ≡ numbered ty.Enum (enum_named heads.now name.now) (number_named heads.now name.now) }
{
    match heads.enum_named(name) {
        Some(_) => match heads.number_named(name) {
            Some(number) => Ty::Enum(number as u32),
            None => Ty::Never,
        },
        None => Ty::Never,
    }
}

fn struct_type(heads: &Heads, name: &Name) -> Ty
    requires { length heads.now < 2 ^ 32 }
    ensures { result ≡ numbered ty.Struct (struct_named heads.now name.now) (number_named heads.now name.now) }
{
    match heads.struct_named(name) {
        Some(_) => match heads.number_named(name) {
            Some(number) => Ty::Struct(number as u32),
            None => Ty::Never,
        },
        None => Ty::Never,
    }
}
