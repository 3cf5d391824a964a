ghost use Rattle.std.specs.Prelude.{◌≡◌, ◌≤◌, codes, filter, length, ◌||◌};
ghost use Rattle.std.specs.List.{list_all};
ghost use Rattle.std.specs.Str.{bytes_eq};
ghost use Rattle.policy_rules.specs.Commands.{are_attributes, has_effect, is_attribute, is_false, is_mark, is_priority, is_truth};

use policy_ast::{Attribute, Literal};

/// Whether the attribute is `init` or `finalize`.
fn is_mark(a: &Attribute) -> bool
    ensures { result ≡ is_mark a.now }
{
    let name = a.name.as_str();
    name == "init" || name == "finalize"
}

fn is_truth(value: &Literal) -> bool
    ensures { result ≡ is_truth value.now }
{
    matches!(value, Literal::True | Literal::False)
}

/// Whether the value is a number from 0 to 2^32 - 1.
fn is_priority(value: &Literal) -> bool
    ensures { result ≡ is_priority value.now }
{
    match value {
        Literal::Number(number) => 0 <= *number && *number < 1 << 32,
        _ => false,
    }
}

/// A mark with a truth value, or a priority in its bounds.
fn is_attribute(a: &Attribute) -> bool
    ensures { result ≡ is_attribute a.now }
{
    is_mark(a) && is_truth(&a.value) || a.name.as_str() == "priority" && is_priority(&a.value)
}

/// A mark that is false is as if it were absent.
fn has_effect(a: &Attribute) -> bool
    ensures { result ≡ has_effect a.now }
{
    !(is_mark(a) && matches!(a.value, Literal::False))
}

fn all_are(attributes: &[Attribute]) -> bool
    ensures { result ≡ list_all is_attribute attributes.now }
{
    for a in attributes {
        if !is_attribute(a) {
            return false;
        }
    }
    true
}

fn count_effects(attributes: &[Attribute]) -> usize
    ensures { result ≡ length (filter has_effect attributes.now) }
{
    let mut count = 0;
    for a in attributes {
        if has_effect(a) {
            count += 1;
        }
    }
    count
}

/// At most one of `init`, `finalize` and `priority`, each with a value that it may have.
pub fn are_attributes(attributes: &[Attribute]) -> bool
    ensures { result ≡ are_attributes attributes.now }
{
    all_are(attributes) && count_effects(attributes) <= 1
}
