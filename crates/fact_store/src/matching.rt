ghost use Rattle.std.specs.Prelude.{◌≡◌, []};
ghost use Rattle.fact_store.specs.Matching.{begins_with, has_named, is_within};
ghost use Rattle.fact_store.specs.Sameness.{same_value};
ghost use Rattle.fact_store.specs.Stored.{row_of};

use crate::Wanted;
use base_bytes::Value;

/// Whether the place is one of the wanted fact whose keys begin with the wanted ones.
pub fn is_place_within(wanted: &Wanted, place: &Wanted) -> bool
    ensures { result ≡ is_within wanted.now (row_of (place.now, [])) }
{
    wanted.fact == place.fact && begins_with(wanted.keys.as_slice(), place.keys.as_slice())
}

fn begins_with(values: &[Value], keys: &[Value]) -> bool
    ensures { result ≡ begins_with values.now keys.now }
{
    match values {
        [] => true,
        [value, values @ ..] => match keys {
            [] => false,
            [key, keys @ ..] => is_equal(value, key) && begins_with(values, keys),
        },
    }
}

/// Whether each named value is there at its place and equal.
pub fn has_named(named: &[Option<Value>], values: &[Value]) -> bool
    ensures { result ≡ has_named named.now values.now }
{
    match named {
        [] => true,
        [None, named @ ..] => match values {
            [] => has_named(named, values),
            [_, values @ ..] => has_named(named, values),
        },
        [Some(wanted), named @ ..] => match values {
            [] => false,
            [value, values @ ..] => is_equal(wanted, value) && has_named(named, values),
        },
    }
}

fn is_equal(value: &Value, other: &Value) -> bool
    ensures { result ≡ same_value value.now other.now }
{
    value.is_same(other)
}
