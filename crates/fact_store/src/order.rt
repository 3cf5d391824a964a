ghost use Rattle.std.specs.Prelude.{◌≡◌};
ghost use Rattle.base_bytes.specs.KeyOrder.{key_order, keys_order};

use base_bytes::{Value, compare, variant_place};
use std::cmp::Ordering;

/// The order of two lists of values: from left to right, a prefix first.
pub(crate) fn compare_lists(values: &[Value], others: &[Value]) -> Ordering
    ensures { result ≡ keys_order values.now others.now }
{
    match values {
        [] => match others {
            [] => Ordering::Equal,
            [_, ..] => Ordering::Less,
        },
        [value, values @ ..] => match others {
            [] => Ordering::Greater,
            [other, others @ ..] => match compare_values(value, other) {
                Ordering::Equal => compare_lists(values, others),
                unequal => unequal,
            },
        },
    }
}

/// `compare`, of values that need be no keys: those go by the order of the variants alone.
fn compare_values(value: &Value, other: &Value) -> Ordering
    ensures { result ≡ key_order value.now other.now }
{
    match (value, other) {
        (Value::Struct(_, _) | Value::Nothing | Value::Some(_), _) => {
            variant_place(value).cmp(&variant_place(other))
        }
        (_, Value::Struct(_, _) | Value::Nothing | Value::Some(_)) => {
            variant_place(value).cmp(&variant_place(other))
        }
        _ => compare(value, other),
    }
}
