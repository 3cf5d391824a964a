//! The type of each form of expression, by what was inferred of its parts. A part without a type is refused with its refusal.

ghost use Rattle.std.specs.Prelude.{◌≡◌, ◌&&◌, Bool, List, Option, Some, option_map};
ghost use Rattle.policy_rules.specs.Expressions.{arithmetic_type, is_equality};
ghost use Rattle.policy_rules.specs.Scopes.{is_kept_envelope, name_type};
ghost use Rattle.policy_rules.specs.Heads.{literal_type};
ghost use Rattle.policy_rules.specs.declared.types.NamedType.{NamedType};
ghost use Rattle.policy_rules.specs.declared.types.NamedType.TheVariants as ty;
ghost use Rattle.policy_rules.specs.Inference.{calculation_of, choice_of, compare_of, inner_of, logic_of, only_if, presence_of, unary_of};
ghost use Rattle.policy_infer.specs.working.Answers.{Allows, Judges};
ghost use Rattle.policy_infer.specs.working.Parts.{joined_of, struct_found};

use crate::passing::{Allowed, both_hold, check_of, is_number, is_typed, only_where};
use crate::refusal::Refusal;
use crate::scope::Scope;
use policy_ast::{Arithmetic, Comparison, Literal, Name, Unary};
use policy_heads::{Heads, copy_type, joined};
use policy_rules::{Context, NamedType};
use sqlite_items::Boxed;
use std::alloc::Global;

/// A type, or why there is none.
pub type Typed = Result<NamedType, Refusal>;

/// The type inside an optional.
fn inner_of(t: NamedType) -> Typed
    ensures { Judges result (inner_of t) }
{
    match t {
        NamedType::Optional(inner) => Ok(inner.into_inner()),
        _ => Err(Refusal::IllTyped),
    }
}

/// The name of a struct.
pub fn struct_name(found: Typed) -> Result<Name, Refusal>
    ensures { (o : Option NamedType) → Judges found o → Judges result (struct_found o) }
{
    match found? {
        NamedType::Struct(name) => Ok(name),
        _ => Err(Refusal::IllTyped),
    }
}

/// The type of both, where one fits the other.
fn joined_of(first: Typed, second: Typed) -> Typed
    ensures { (o p : Option NamedType) → Judges first o → Judges second p → Judges result (joined_of o p) }
{
    let first = first?;
    let second = second?;
    match joined(first, second) {
        Some(t) => Ok(t),
        None => Err(Refusal::IllTyped),
    }
}

/// A bool, where the test is passed.
fn bool_where(passed: Allowed) -> Typed
    ensures { (b : Bool) → Allows passed b → Judges result (only_if b (Some ty.Bool)) }
{
    passed?;
    Ok(NamedType::Bool)
}

/// `&&` and `||`
pub fn logic_of(first: Typed, second: Typed) -> Typed
    ensures { (o p : Option NamedType) → Judges first o → Judges second p → Judges result (logic_of o p) }
{
    let first = check_of(first);
    bool_where(both_hold(first, check_of(second)))
}

/// `==` and `!=`, where the others are orders.
fn is_equality(op: Comparison) -> bool
    ensures { result ≡ is_equality op }
{
    matches!(op, Comparison::Equal | Comparison::NotEqual)
}

/// Comparisons.
pub fn compare_of(op: Comparison, first: Typed, second: Typed) -> Typed
    ensures { (o p : Option NamedType) → Judges first o → Judges second p → Judges result (compare_of op o p) }
{
    if is_equality(op) {
        return bool_where(is_typed(joined_of(first, second)));
    }
    let first = is_number(first);
    bool_where(both_hold(first, is_number(second)))
}

/// `is Some` and `is None`
pub fn presence_of(found: Typed) -> Typed
    ensures { (o : Option NamedType) → Judges found o → Judges result (presence_of o) }
{
    let _inner = inner_of(found?)?;
    Ok(NamedType::Bool)
}

/// `!`, `unwrap` and `check_unwrap`
pub fn unary_of(op: Unary, found: Typed) -> Typed
    ensures { (o : Option NamedType) → Judges found o → Judges result (unary_of op o) }
{
    match op {
        Unary::Not => bool_where(check_of(found)),
        Unary::Unwrap | Unary::CheckUnwrap => inner_of(found?),
    }
}

fn arithmetic_type(alloc: Global, op: Arithmetic) -> Typed
    ensures { Judges result (Some (arithmetic_type op)) }
{
    match op {
        Arithmetic::Add | Arithmetic::Sub => {
            Ok(NamedType::Optional(Boxed::new(alloc, NamedType::Int)?))
        }
        Arithmetic::SaturatingAdd | Arithmetic::SaturatingSub => Ok(NamedType::Int),
    }
}

/// The operations on two numbers.
pub fn calculation_of(alloc: Global, op: Arithmetic, first: Typed, second: Typed) -> Typed
    ensures { (o p : Option NamedType) → Judges first o → Judges second p → Judges result (calculation_of op o p) }
{
    let first = is_number(first);
    let passed = both_hold(first, is_number(second));
    only_where(passed, arithmetic_type(alloc, op))
}

/// `if`, by its head and its two branches.
pub fn choice_of(head: Typed, first: Typed, second: Typed) -> Typed
    ensures { (h o p : Option NamedType) → Judges head h → Judges first o → Judges second p → Judges result (choice_of h o p) }
{
    let head = check_of(head);
    only_where(head, joined_of(first, second))
}

/// `None`
pub fn none_type(alloc: Global) -> Typed
    ensures { Judges result (Some (ty.Optional ty.Never)) }
{
    Ok(NamedType::Optional(Boxed::new(alloc, NamedType::Never)?))
}

/// `Some`
pub fn some_of(alloc: Global, found: Typed) -> Typed
    ensures { (o : Option NamedType) → Judges found o → Judges result (option_map ty.Optional o) }
{
    let inner = found?;
    Ok(NamedType::Optional(Boxed::new(alloc, inner)?))
}

/// `this`
pub fn this_type(alloc: Global, context: &Context) -> Typed
    ensures { Judges result (option_map ty.Struct context.now.this) }
{
    match &context.this {
        Some(command) => Ok(NamedType::Struct(command.copy(alloc)?)),
        None => Err(Refusal::IllTyped),
    }
}

pub fn literal_type(alloc: Global, heads: &Heads<'_>, literal: &Literal) -> Typed
    ensures { Judges result (literal_type heads.now literal.now) }
{
    match heads.literal_type(alloc, literal)? {
        Some(t) => Ok(t),
        None => Err(Refusal::IllTyped),
    }
}

/// In the policy and recall blocks of a command `envelope` is kept for two calls.
pub fn is_kept_envelope(context: &Context, name: &Name) -> bool
    ensures { result ≡ is_kept_envelope context.now name.now }
{
    context.this.is_some() && name.as_str() == "envelope"
}

/// A name that stands as an expression.
pub fn name_type(
    alloc: Global,
    heads: &Heads<'_>,
    context: &Context,
    scope: &Scope,
    name: &Name,
) -> Typed
    ensures { Judges result (name_type heads.now context.now scope.now name.now) }
{
    if is_kept_envelope(context, name) {
        return Err(Refusal::IllTyped);
    }
    if let Some(t) = scope.type_in(name) {
        return Ok(copy_type(alloc, t)?);
    }
    match heads.let_named(name) {
        Some(t) => Ok(copy_type(alloc, t)?),
        None => Err(Refusal::IllTyped),
    }
}
