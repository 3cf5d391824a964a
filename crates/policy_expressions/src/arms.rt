//! Which arm of a `match` takes a value.

ghost use Rattle.std.specs.Prelude.{◌≡◌, ◌==◌, ℕ, false, option_map, position, unwrap_or, IsTrue};
ghost use Rattle.std.specs.List.{list_any};
ghost use Rattle.std.specs.Option.{option_copied};
ghost use Rattle.std.specs.Str.{bytes_eq};
ghost use Rattle.base_bytes.specs.declared.value.Value.TheVariants as written;
ghost use Rattle.fact_store.specs.Sameness.{same_value};
ghost use Rattle.policy_meaning.specs.Arms.{first_body, is_value, listed_value, takes};
ghost use Rattle.policy_meaning.specs.Environments.{literal_value, variant_value};
ghost use Rattle.policy_rules.specs.FieldLists.{are_distinct};

use crate::known::Known;
use base_bytes::{Text, Value};
use policy_ast::{Arm, ArmPattern, Literal, Name, PatternLiteral, Stmt};
use sqlite_items::at;

fn is_number(value: &Value, number: i64) -> bool
    ensures { result ≡ same_value (written.Int number) value.now }
{
    match value {
        Value::Int(own) => *own == number,
        _ => false,
    }
}

fn is_text(value: &Value, text: &Text) -> bool
    ensures { result ≡ same_value (written.Str text.now) value.now }
{
    match value {
        Value::Str(own) => own == text,
        _ => false,
    }
}

fn is_truth(value: &Value, truth: bool) -> bool
    ensures { result ≡ same_value (written.Bool truth) value.now }
{
    match value {
        Value::Bool(own) => *own == truth,
        _ => false,
    }
}

fn is_nothing(value: &Value) -> bool
    ensures { result ≡ same_value written.Nothing value.now }
{
    matches!(value, Value::Nothing)
}

/// The ordinal of a value of the enum of this number.
fn ordinal_in(value: &Value, number: u32) -> Option<u16>
    ensures { (k : ℕ) → same_value (written.Enum number k) value.now ≡ unwrap_or (option_map (λ ordinal. k == ordinal) result) false }
{
    match value {
        Value::Enum(own, ordinal) if *own == number => Some(*ordinal),
        _ => None,
    }
}

/// Whether the variant has this ordinal. It is looked at there alone.
fn has_ordinal(variants: &[Name], variant: &Name, ordinal: u16) -> bool
    requires distinct { IsTrue (are_distinct variants.now) }
    ensures { result ≡ unwrap_or (option_map (λ place. place == ordinal) (position (bytes_eq variant.now) variants.now)) false }
{
    match at(variants, ordinal as usize) {
        Some(own) => *variant == *own,
        None => false,
    }
}

/// Whether the value is `name::variant`.
fn is_variant(known: &Known<'_>, value: &Value, name: &Name, variant: &Name) -> bool
    ensures { result ≡ is_value value.now (variant_value known.now name.now variant.now) }
{
    match known.number_named(name) {
        Some(number) => match known.variants_named(name) {
            Some(variants) => match ordinal_in(value, number) {
                Some(ordinal) => has_ordinal(variants, variant, ordinal),
                None => false,
            },
            None => false,
        },
        None => false,
    }
}

/// Whether the value is that which a literal writes. Texts are not copied.
fn is_literal(known: &Known<'_>, value: &Value, literal: &Literal) -> bool
    ensures { result ≡ is_value value.now (literal_value known.now literal.now) }
{
    match literal {
        Literal::Number(number) => is_number(value, *number),
        Literal::Text(text) => is_text(value, text),
        Literal::True => is_truth(value, true),
        Literal::False => is_truth(value, false),
        Literal::Variant(name, variant) => is_variant(known, value, name, variant),
    }
}

fn is_listed(known: &Known<'_>, value: &Value, listed: &PatternLiteral) -> bool
    ensures { result ≡ is_value value.now (listed_value known.now listed.now) }
{
    match listed {
        PatternLiteral::Literal(literal) => is_literal(known, value, literal),
        PatternLiteral::None => is_nothing(value),
    }
}

fn lists(known: &Known<'_>, value: &Value, literals: &[PatternLiteral]) -> bool
    ensures { result ≡ list_any (λ p. is_value value.now (listed_value known.now p)) literals.now }
{
    for literal in literals {
        if is_listed(known, value, literal) {
            return true;
        }
    }
    false
}

fn takes(known: &Known<'_>, value: &Value, pattern: &ArmPattern) -> bool
    ensures { result ≡ takes known.now value.now pattern.now }
{
    match pattern {
        ArmPattern::Any => true,
        ArmPattern::Literals(literals) => lists(known, value, literals.as_slice()),
    }
}

/// The body of the first arm that takes the value.
pub fn first_body<'b>(known: &Known<'_>, value: &Value, arms: &'b [Arm<Stmt>]) -> Option<&'b [Stmt]>
    ensures { option_copied result ≡ first_body known.now value.now arms.now }
{
    for arm in arms {
        if takes(known, value, &arm.pattern) {
            return Some(arm.body.as_slice());
        }
    }
    None
}
