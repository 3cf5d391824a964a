//! What one argument is at one type, where the arguments inside it are resolved.

ghost use Rattle.std.specs.Prelude.{◌≡◌, ◌<◌, ◌^◌, List, length, Option, option_and_then, option_map, position, IfOk, IfSome};
ghost use Rattle.std.specs.Option.{option_copied};
ghost use Rattle.std.specs.Str.{bytes_eq};
ghost use Rattle.base_bytes.specs.Values.{fits_bytes, fits_id, fits_text};
ghost use Rattle.base_bytes.specs.declared.arg.Arg.TheOpen.{Arg-F};
ghost use Rattle.base_bytes.specs.declared.ty.Ty.{out-Ty};
ghost use Rattle.base_bytes.specs.declared.value.Value.{Value};
ghost use Rattle.base_bytes.specs.declared.value.Value.TheVariants as value;
ghost use Rattle.policy_ast.specs.declared.item.Item.{Item};
ghost use Rattle.policy_meaning.specs.Resolving.{resolved_layer};
ghost use Rattle.policy_meaning.specs.working.Resolutions.{enum_number, inner_type, item_at, struct_number};
ghost use Rattle.policy_rules.specs.Heads.{variants};
ghost use Rattle.policy_rules.specs.WellTyped.{IsWellTyped, items_of};

use crate::given::item_at;
use base_bytes::{Bytes, Id, NoMemory, Text, Ty, Value, Values};
use policy_ast::{Item, Name, Policy};
use sqlite_items::Boxed;
use std::alloc::Global;

pub fn int_at(ty: &Ty, number: i64) -> Option<Value>
    ensures { (items : List Item) → result ≡ resolved_layer items (Arg-F.Int number) (out-Ty ty.now) }
{
    match ty {
        Ty::Int => Some(Value::Int(number)),
        _ => None,
    }
}

pub fn bool_at(ty: &Ty, truth: bool) -> Option<Value>
    ensures { (items : List Item) → result ≡ resolved_layer items (Arg-F.Bool truth) (out-Ty ty.now) }
{
    match ty {
        Ty::Bool => Some(Value::Bool(truth)),
        _ => None,
    }
}

pub fn text_at(alloc: Global, ty: &Ty, text: &Text) -> Result<Option<Value>, NoMemory>
    ensures { IfOk result (λ found. (items : List Item) → found ≡ resolved_layer items (Arg-F.Str text.now) (out-Ty ty.now)) }
{
    match ty {
        Ty::Str => {
            if is_short_text(text) {
                Ok(Some(Value::Str(text.copy(alloc)?)))
            } else {
                Ok(None)
            }
        }
        _ => Ok(None),
    }
}

/// Whether the length of the text can be spelled.
fn is_short_text(text: &Text) -> bool
    ensures { result ≡ fits_text text.now }
{
    text.as_slice().len() < 4_294_967_296
}

pub fn bytes_at(alloc: Global, ty: &Ty, bytes: &Bytes) -> Result<Option<Value>, NoMemory>
    ensures { IfOk result (λ found. (items : List Item) → found ≡ resolved_layer items (Arg-F.Raw bytes.now) (out-Ty ty.now)) }
{
    match ty {
        Ty::Raw => {
            if are_short(bytes.as_slice()) {
                Ok(Some(Value::Raw(bytes.copy(alloc)?)))
            } else {
                Ok(None)
            }
        }
        _ => Ok(None),
    }
}

/// Whether the length of the bytes can be spelled.
fn are_short(bytes: &[u8]) -> bool
    ensures { result ≡ fits_bytes bytes.now }
{
    bytes.len() < 4_294_967_296
}

pub fn id_at(ty: &Ty, id: Id) -> Option<Value>
    ensures { (items : List Item) → result ≡ resolved_layer items (Arg-F.Ident id) (out-Ty ty.now) }
{
    match ty {
        Ty::Ident => {
            if is_id(id.as_slice()) {
                Some(Value::Ident(id))
            } else {
                None
            }
        }
        _ => None,
    }
}

fn is_id(bytes: &[u8]) -> bool
    ensures { result ≡ fits_id bytes.now }
{
    bytes.len() == 32
}

pub fn variant_at(policy: &Policy, ty: &Ty, name: &Text, variant: &Text) -> Option<Value>
    requires well_typed { IsWellTyped policy.now }
    ensures { result ≡ resolved_layer (items_of policy.now) (Arg-F.Variant name.now variant.now) (out-Ty ty.now) }
{
    match enum_number(ty) {
        Some(number) => match variants_at(policy, number, name) {
            Some(variants) => enum_value(number, variants, variant),
            None => None,
        },
        None => None,
    }
}

/// The variants of the enum of this number, where the name means it. A well-typed enum has no more than an ordinal can tell apart.
fn variants_at<'a>(policy: &'a Policy, number: u32, name: &Text) -> Option<&'a [Name]>
    requires well_typed { IsWellTyped policy.now }
    ensures value { option_copied result ≡ option_and_then variants (item_at (items_of policy.now) number name.now) }
    ensures few { IfSome result (λ variants. length variants.now < 2 ^ 16) }
{
    match item_at(policy, number, name) {
        Some(Item::Enum(_, variants)) => Some(variants.as_slice()),
        _ => None,
    }
}

fn enum_value(number: u32, variants: &[Name], variant: &Text) -> Option<Value>
    requires few { length variants.now < 2 ^ 16 }
    ensures { result ≡ option_map (value.Enum number) (position (bytes_eq variant.now) variants.now) }
{
    match place_of_variant(variants, variant.as_slice()) {
        Some(ordinal) => Some(Value::Enum(number, ordinal as u16)),
        None => None,
    }
}

fn place_of_variant(variants: &[Name], variant: &[u8]) -> Option<usize>
    ensures value { result ≡ position (bytes_eq variant.now) variants.now }
    ensures within { IfSome result (λ place. place < length variants.now) }
{
    variants
        .iter()
        .position(|name| variant == name.as_str().as_bytes())
}

/// The number of the enum that the type is.
fn enum_number(ty: &Ty) -> Option<u32>
    ensures { result ≡ enum_number (out-Ty ty.now) }
{
    match ty {
        Ty::Enum(number) => Some(*number),
        _ => None,
    }
}

/// The number of the struct that the type is.
pub fn struct_number(ty: &Ty) -> Option<u32>
    ensures { result ≡ struct_number (out-Ty ty.now) }
{
    match ty {
        Ty::Struct(number) => Some(*number),
        _ => None,
    }
}

/// The type inside an optional.
pub fn inner_type(ty: &Ty) -> Option<&Ty>
    ensures { option_copied result ≡ inner_type (out-Ty ty.now) }
{
    match ty {
        Ty::Optional(inner) => Some(inner.get()),
        _ => None,
    }
}

pub fn nothing_at(ty: &Ty) -> Option<Value>
    ensures { (items : List Item) → result ≡ resolved_layer items Arg-F.Nothing (out-Ty ty.now) }
{
    match ty {
        Ty::Optional(_) => Some(Value::Nothing),
        _ => None,
    }
}

/// `Some` of a value that was found.
pub fn some_of(
    alloc: Global,
    inner: Result<Option<Value>, NoMemory>,
) -> Result<Option<Value>, NoMemory>
    ensures { (o : Option Value) → IfOk inner (λ found. found ≡ o) → IfOk result (λ found. found ≡ option_map value.Some o) }
{
    match inner? {
        Some(value) => Ok(Some(Value::Some(Boxed::new(alloc, value)?))),
        None => Ok(None),
    }
}

/// The struct of fields that were found.
pub fn struct_of(
    number: u32,
    fields: Result<Option<Values>, NoMemory>,
) -> Result<Option<Value>, NoMemory>
    ensures { (o : Option (List Value)) → IfOk fields (λ found. found ≡ o) → IfOk result (λ found. found ≡ option_map (value.Struct number) o) }
{
    match fields? {
        Some(values) => Ok(Some(Value::Struct(number, values))),
        None => Ok(None),
    }
}
