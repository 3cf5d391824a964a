//! The values of what has no parts: literals, names, `this`, and what the command or the device is asked for.

ghost use Rattle.std.specs.Prelude.{◌≡◌, ◌<◌, ◌^◌, ℕ, length, option_and_then, option_map, position, IfSome};
ghost use Rattle.std.specs.Option.{option_copied};
ghost use Rattle.std.specs.Str.{bytes_eq};
ghost use Rattle.base_bytes.specs.declared.value.Value.TheVariants as value;
ghost use Rattle.policy_meaning.specs.Environments.{foreign_value, let_value, literal_value, name_value, variant_value};
ghost use Rattle.policy_rules.specs.Heads.{enum_named};
ghost use Rattle.policy_rules.specs.Names.{item_named};
ghost use Rattle.policy_meaning.specs.Outcomes.{or_stuck};
ghost use Rattle.policy_expressions.specs.Answers.{Gives};

use crate::env::Env;
use crate::known::Known;
use crate::setting::Setting;
use crate::stop::{Answer, Stop};
use base_bytes::{Id, Value};
use policy_ast::{Item, Literal, Name};
use std::alloc::Global;

/// The place of a variant among these.
fn place_of_variant(variants: &[Name], variant: &Name) -> Option<usize>
    ensures place { result ≡ position (bytes_eq variant.now) variants.now }
    ensures within { IfSome result (λ place. place < length variants.now) }
{
    variants.iter().position(|other| *variant == *other)
}

/// The value of the enum of this number at this variant.
fn enum_value(number: u32, variants: &[Name], variant: &Name) -> Option<Value>
    requires few { length variants.now < 2 ^ 16 }
    ensures { result ≡ option_map (value.Enum number) (position (bytes_eq variant.now) variants.now) }
{
    match place_of_variant(variants, variant) {
        Some(ordinal) => Some(Value::Enum(number, ordinal as u16)),
        None => None,
    }
}

/// `name::variant`
fn variant_value(known: &Known<'_>, name: &Name, variant: &Name) -> Option<Value>
    ensures { result ≡ variant_value known.now name.now variant.now }
{
    match known.number_named(name) {
        Some(number) => match known.variants_named(name) {
            Some(variants) => enum_value(number, variants, variant),
            None => None,
        },
        None => None,
    }
}

/// What is there, and stuck where nothing is.
fn or_stuck(found: Option<Value>) -> Answer<Value>
    ensures { (turns : ℕ) → Gives result turns (or_stuck found turns) }
{
    match found {
        Some(value) => Ok(value),
        None => Err(Stop::Stuck),
    }
}

/// The value that a literal writes.
pub fn literal_value(alloc: Global, known: &Known<'_>, literal: &Literal) -> Answer<Value>
    ensures { (turns : ℕ) → Gives result turns (or_stuck (literal_value known.now literal.now) turns) }
{
    match literal {
        Literal::Number(number) => Ok(Value::Int(*number)),
        Literal::Text(text) => Ok(Value::Str(text.copy(alloc)?)),
        Literal::True => Ok(Value::Bool(true)),
        Literal::False => Ok(Value::Bool(false)),
        Literal::Variant(name, variant) => or_stuck(variant_value(known, name, variant)),
    }
}

/// The value of a policy's `let`.
fn let_value(alloc: Global, known: &Known<'_>, name: &Name) -> Answer<Value>
    ensures { (turns : ℕ) → Gives result turns (or_stuck (option_and_then (let_value known.now) (item_named known.now name.now)) turns) }
{
    match known.item_named(name) {
        Some(Item::Let(_, literal)) => literal_value(alloc, known, literal),
        _ => Err(Stop::Stuck),
    }
}

/// The value of a name: of one in scope, or of a policy's `let`.
pub fn name_value(alloc: Global, known: &Known<'_>, env: &Env<'_>, name: &Name) -> Answer<Value>
    ensures { (turns : ℕ) → Gives result turns (or_stuck (name_value known.now env.now name.now) turns) }
{
    match env.value_in(name) {
        Some(value) => Ok(value.copy(alloc)?),
        None => let_value(alloc, known, name),
    }
}

/// `this`
pub fn this_value(alloc: Global, setting: &Setting<'_>) -> Answer<Value>
    ensures { (turns : ℕ) → Gives result turns (or_stuck setting.now.this turns) }
{
    setting.this(alloc)
}

/// An id, where it is known.
fn id_value(id: Option<Id>) -> Answer<Value>
    ensures { (turns : ℕ) → Gives result turns (or_stuck (option_map value.Ident id) turns) }
{
    match id {
        Some(id) => Ok(Value::Ident(id)),
        None => Err(Stop::Stuck),
    }
}

/// `envelope::author_id`, `envelope::command_id` and `device::current_device_id`
pub fn foreign_value(setting: &Setting<'_>, of: &Name, called: &Name) -> Answer<Value>
    ensures { (turns : ℕ) → Gives result turns (or_stuck (foreign_value setting.now of.now called.now) turns) }
{
    let of = of.as_str();
    let called = called.as_str();
    if of == "envelope" && called == "author_id" {
        id_value(setting.author())
    } else if of == "envelope" && called == "command_id" {
        id_value(setting.command_id())
    } else if of == "device" && called == "current_device_id" {
        id_value(setting.device())
    } else {
        Err(Stop::Stuck)
    }
}
