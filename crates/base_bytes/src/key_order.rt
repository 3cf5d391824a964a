ghost use Rattle.std.specs.Prelude.{◌≡◌, IsTrue};
ghost use Rattle.base_bytes.specs.declared.value.Value.{out-Value};
ghost use Rattle.base_bytes.specs.KeyOrder.{is_key, key_order, variant_place as place_of};

use crate::Value;
use std::cmp::Ordering;

/// The order of two keys: numbers by value, false before true, texts, bytes and ids byte by byte with a prefix first,
/// enums by item and then by ordinal, and keys of different variants in the order of the variants.
pub fn compare(a: &Value, b: &Value) -> Ordering
    requires first { IsTrue (is_key a.now) }
    requires second { IsTrue (is_key b.now) }
    ensures { result ≡ key_order a.now b.now }
{
    match (a, b) {
        (Value::Int(a), Value::Int(b)) => a.cmp(b),
        (Value::Bool(a), Value::Bool(b)) => a.cmp(b),
        (Value::Str(a), Value::Str(b)) => a.as_slice().cmp(b.as_slice()),
        (Value::Raw(a), Value::Raw(b)) => a.as_slice().cmp(b.as_slice()),
        (Value::Ident(a), Value::Ident(b)) => a.cmp(b),
        (Value::Enum(item, ordinal), Value::Enum(other, place)) => {
            item.cmp(other).then(ordinal.cmp(place))
        }
        _ => variant_place(a).cmp(&variant_place(b)),
    }
}

/// The place of a value's variant among the variants of `Value`, from 0.
pub fn variant_place(value: &Value) -> u8
    ensures { result ≡ place_of (out-Value value.now) }
{
    match value {
        Value::Int(_) => 0,
        Value::Bool(_) => 1,
        Value::Str(_) => 2,
        Value::Raw(_) => 3,
        Value::Ident(_) => 4,
        Value::Enum(_, _) => 5,
        Value::Struct(_, _) => 6,
        Value::Nothing => 7,
        Value::Some(_) => 8,
    }
}
