//! Which item a name means, and the types of values. Both stand in `policy_meaning` too, from which they are to be exported.

ghost use Rattle.std.specs.Prelude.{◌≡◌, ◌<◌, ◌^◌, length, position, slice_get, IfOk};
ghost use Rattle.std.specs.Option.{option_copied};
ghost use Rattle.base_bytes.specs.declared.ty.Ty.TheVariants as ty;
ghost use Rattle.policy_rules.specs.Heads.{enum_named, struct_named};
ghost use Rattle.policy_rules.specs.Names.{is_named, name_of, number_named};
ghost use Rattle.policy_rules.specs.Shapes.{numbered, value_type_of};
ghost use Rattle.policy_rules.specs.Types.{written_type};
ghost use Rattle.policy_rules.specs.WellTyped.{items_of};

use base_bytes::{NoMemory, Ty};
use policy_ast::{FieldType, Item, Name, PlacedItem, Policy};
use policy_heads::Heads;
use sqlite_items::{Boxed, at};
use std::alloc::Global;

/// The name of an item; `use` has none.
fn name_of(item: &Item) -> Option<&Name>
    ensures { option_copied result ≡ name_of item.now }
{
    match item {
        Item::Use(_) => None,
        Item::Let(name, _) => Some(name),
        Item::Enum(name, _) => Some(name),
        Item::Struct(name, _) => Some(name),
        Item::Effect(name, _) => Some(name),
        Item::Fact { name, .. } => Some(name),
        Item::Command(name, _) => Some(name),
        Item::Function { name, .. } => Some(name),
        Item::FinishFunction { name, .. } => Some(name),
        Item::Action { name, .. } => Some(name),
    }
}

fn is_named(item: &Item, name: &[u8]) -> bool
    ensures { result ≡ is_named name.now item.now }
{
    match name_of(item) {
        Some(own) => name == own.as_str().as_bytes(),
        None => false,
    }
}

fn position_named(items: &[PlacedItem], name: &[u8]) -> Option<usize>
    ensures { result ≡ position (λ p. is_named name.now p.item) items.now }
{
    items.iter().position(|placed| is_named(&placed.item, name))
}

/// The number of the item that a name means, counted from 0.
pub fn number_named(items: &[PlacedItem], name: &[u8]) -> Option<usize>
    ensures { result ≡ number_named (items_of items.now) name.now }
{
    position_named(items, name)
}

/// The item of a number.
pub fn item_at(policy: &Policy, number: u32) -> Option<&Item>
    ensures { option_copied result ≡ slice_get (items_of policy.now) number }
{
    match at(policy.items(), number as usize) {
        Some(placed) => Some(&placed.item),
        None => None,
    }
}

/// The type of the values of a written type.
pub fn value_type(alloc: Global, heads: &Heads, t: &FieldType) -> Result<Ty, NoMemory>
    requires { length heads.now < 2 ^ 32 }
    ensures { IfOk result (λ it. it ≡ value_type_of heads.now (written_type t.now)) }
{
    match t {
        FieldType::Int => Ok(Ty::Int),
        FieldType::Bool => Ok(Ty::Bool),
        FieldType::Str => Ok(Ty::Str),
        FieldType::Raw => Ok(Ty::Raw),
        FieldType::Ident => Ok(Ty::Ident),
        FieldType::Enum(name) => Ok(enum_type(heads, name)),
        FieldType::Struct(name) => Ok(struct_type(heads, name)),
        FieldType::Optional(inner) => {
            let inner = value_type(alloc, heads, inner.get())?;
            Ok(Ty::Optional(Boxed::new(alloc, inner)?))
        }
    }
}

fn enum_type(heads: &Heads, name: &Name) -> Ty
    requires { length heads.now < 2 ^ 32 }
    ensures { result ≡ numbered ty.Enum (enum_named heads.now name.now) (number_named heads.now name.now) }
{
    match heads.enum_named(name) {
        Some(_) => match heads.number_named(name) {
            Some(number) => Ty::Enum(number as u32),
            None => Ty::Never,
        },
        None => Ty::Never,
    }
}

fn struct_type(heads: &Heads, name: &Name) -> Ty
    requires { length heads.now < 2 ^ 32 }
    ensures { result ≡ numbered ty.Struct (struct_named heads.now name.now) (number_named heads.now name.now) }
{
    match heads.struct_named(name) {
        Some(_) => match heads.number_named(name) {
            Some(number) => Ty::Struct(number as u32),
            None => Ty::Never,
        },
        None => Ty::Never,
    }
}
