//! The types of expressions that use what the policy's items define.

ghost use Rattle.std.specs.Prelude.{◌≡◌, [], ◌∷◌, ◌++◌, length, map, option_map, IfOk, List, Option, Some};
ghost use Rattle.policy_rules.specs.Expressions.{count_type, is_positive, value_part};
ghost use Rattle.policy_rules.specs.Scopes.{may_introduce};
ghost use Rattle.policy_rules.specs.declared.types.NamedType.{NamedType};
ghost use Rattle.policy_rules.specs.declared.types.NamedType.TheVariants as ty;
ghost use Rattle.policy_rules.specs.Inference.{call_of, field_of, only_if, struct_literal_of, with_pattern};
ghost use Rattle.policy_infer.specs.working.Answers.{Allows, Judges, Keeps, Leads};
ghost use Rattle.policy_infer.specs.working.Parts.{field_type, is_row_of};
ghost use Rattle.policy_infer.specs.working.Types.{introduced};

use crate::field_lists::{arguments_fit, in_any_order, pattern_fits, type_in};
use crate::forms::{Typed, is_kept_envelope, struct_name};
use crate::passing::{Allowed, allowed, only_where};
use crate::refusal::Refusal;
use crate::scope::Scope;
use policy_ast::{Bind, Count, Expr, Name, Pattern};
use policy_heads::{Heads, copy_type};
use policy_rules::{Context, NamedType};
use sqlite_items::{Boxed, Items};
use std::alloc::Global;

/// The types of a list of expressions, or why there are none.
pub type AllTyped = Result<Items<NamedType>, Refusal>;

/// The same, where a `?` may stand in place of an expression.
pub type GapsTyped = Result<Items<Option<NamedType>>, Refusal>;

/// The types with one more.
pub fn with_type(types: Items<NamedType>, found: Typed) -> AllTyped
    ensures { (o : Option NamedType) → Judges found o → Judges result (option_map (λ t. types ++ t ∷ []) o) }
{
    let mut types = types;
    types.push(found?)?;
    Ok(types)
}

/// The same, where a `?` may stand in place of others.
pub fn with_gap_type(types: Items<Option<NamedType>>, found: Typed) -> GapsTyped
    ensures { (o : Option NamedType) → Judges found o → Judges result (option_map (λ t. types ++ Some t ∷ []) o) }
{
    let mut types = types;
    types.push(Some(found?))?;
    Ok(types)
}

/// The type of a struct's field.
fn field_type(alloc: Global, heads: &Heads<'_>, struct_name: &Name, name: &Name) -> Typed
    ensures { Judges result (field_type heads.now name.now struct_name.now) }
{
    let Some(fields) = heads.struct_named(struct_name) else {
        return Err(Refusal::IllTyped);
    };
    match type_in(fields, name) {
        Some(t) => Ok(copy_type(alloc, t)?),
        None => Err(Refusal::IllTyped),
    }
}

/// `.name`, of a struct that has such a field.
pub fn field_of(alloc: Global, heads: &Heads<'_>, name: &Name, found: Typed) -> Typed
    ensures { (o : Option NamedType) → Judges found o → Judges result (field_of heads.now name.now o) }
{
    let struct_name = struct_name(found)?;
    field_type(alloc, heads, &struct_name, name)
}

/// A call of a function, by the types of its arguments.
fn call_type(alloc: Global, heads: &Heads<'_>, called: &Name, types: &[NamedType]) -> Typed
    ensures { Judges result (call_of heads.now called.now (Some types.now)) }
{
    let Some(function) = heads.function_named(called) else {
        return Err(Refusal::IllTyped);
    };
    if arguments_fit(types, function.parameters) {
        Ok(copy_type(alloc, function.result)?)
    } else {
        Err(Refusal::IllTyped)
    }
}

/// A call of a function.
pub fn call_of(alloc: Global, heads: &Heads<'_>, called: &Name, found: AllTyped) -> Typed
    ensures { (o : Option (List NamedType)) → Judges found o → Judges result (call_of heads.now called.now o) }
{
    let types = found?;
    call_type(alloc, heads, called, types.as_slice())
}

/// A struct literal, by the types of its values.
fn struct_literal_type(
    alloc: Global,
    heads: &Heads<'_>,
    name: &Name,
    binds: &[Bind<Expr>],
    types: &[NamedType],
) -> Typed
    requires { length types.now ≡ length binds.now }
    ensures { Judges result (struct_literal_of heads.now name.now (map (λ b. b.name) binds.now) (Some types.now)) }
{
    let Some(fields) = heads.struct_named(name) else {
        return Err(Refusal::IllTyped);
    };
    if in_any_order(alloc, fields, binds, types)? {
        Ok(NamedType::Struct(name.copy(alloc)?))
    } else {
        Err(Refusal::IllTyped)
    }
}

/// A struct literal.
pub fn struct_literal_of(
    alloc: Global,
    heads: &Heads<'_>,
    name: &Name,
    binds: &[Bind<Expr>],
    found: AllTyped,
) -> Typed
    requires { IfOk found (λ types. length types ≡ length binds.now) }
    ensures { (o : Option (List NamedType)) → Judges found o → Judges result (struct_literal_of heads.now name.now (map (λ b. b.name) binds.now) o) }
{
    let types = found?;
    struct_literal_type(alloc, heads, name, binds, types.as_slice())
}

/// The struct type of a fact's rows.
pub fn struct_type(alloc: Global, fact: &Name) -> Typed
    ensures { Judges result (Some (ty.Struct fact.now)) }
{
    Ok(NamedType::Struct(fact.copy(alloc)?))
}

/// The type of a query.
pub fn query_type(alloc: Global, fact: &Name) -> Typed
    ensures { Judges result (Some (ty.Optional (ty.Struct fact.now))) }
{
    let inner = NamedType::Struct(fact.copy(alloc)?);
    Ok(NamedType::Optional(Boxed::new(alloc, inner)?))
}

/// `count_up_to` gives a number, and the other counts say whether it is met.
pub fn count_type(op: Count) -> NamedType
    ensures { result ≡ count_type op }
{
    match op {
        Count::CountUpTo => NamedType::Int,
        Count::AtLeast | Count::AtMost | Count::Exactly => NamedType::Bool,
    }
}

/// Whether the pattern is one of its fact's rows.
fn is_row(
    alloc: Global,
    heads: &Heads<'_>,
    p: &Pattern<Expr>,
    keys: &GapsTyped,
    values: &GapsTyped,
) -> Allowed
    requires keys { IfOk keys.now (λ types. length types ≡ length p.now.keys) }
    requires values { IfOk values.now (λ types. length types ≡ length (value_part p.now.values)) }
    ensures { (ks vs : Option (List (Option NamedType))) → Judges keys.now ks → Judges values.now vs
        → Allows result (is_row_of heads.now p.now.fact (map (λ f. f.name) p.now.keys) ks (map (λ f. f.name) (value_part p.now.values)) vs) }
{
    let Some(fact) = heads.fact_named(&p.fact) else {
        return Err(Refusal::IllTyped);
    };
    let keys = match keys {
        Ok(keys) => keys.as_slice(),
        Err(refusal) => return Err(*refusal),
    };
    let values = match values {
        Ok(values) => values.as_slice(),
        Err(refusal) => return Err(*refusal),
    };
    allowed(pattern_fits(alloc, fact, p, keys, values)?)
}

/// The type, where the pattern is one of its fact's rows.
pub fn pattern_type(
    alloc: Global,
    heads: &Heads<'_>,
    p: &Pattern<Expr>,
    keys: GapsTyped,
    values: GapsTyped,
    t: Typed,
) -> Typed
    requires keys { IfOk keys (λ types. length types ≡ length p.now.keys) }
    requires values { IfOk values (λ types. length types ≡ length (value_part p.now.values)) }
    ensures { (ks vs : Option (List (Option NamedType))) (u : NamedType) → Judges keys ks → Judges values vs → Judges t (Some u)
        → Judges result (with_pattern heads.now p.now.fact (map (λ f. f.name) p.now.keys) ks (map (λ f. f.name) (value_part p.now.values)) vs u) }
{
    only_where(is_row(alloc, heads, p, &keys, &values), t)
}

/// The type, where the number is at least 1.
pub fn counted(n: &i64, t: Typed) -> Typed
    ensures { (o : Option NamedType) → Judges t o → Judges result (only_if (is_positive n.now) o) }
{
    let n = *n;
    if n < 1 {
        return Err(Refusal::IllTyped);
    }
    t
}

/// Whether a name may be introduced.
fn may_introduce(heads: &Heads<'_>, context: &Context, scope: &Scope, name: &Name) -> bool
    ensures { result ≡ may_introduce heads.now context.now scope.now name.now }
{
    scope.type_in(name).is_none() && !heads.is_let_name(name) && !is_kept_envelope(context, name)
}

/// Introduces a name for a value of the type that was found, where it may be introduced.
pub fn introduce(
    alloc: Global,
    heads: &Heads<'_>,
    context: &Context,
    scope: &mut Scope,
    name: &Name,
    found: Typed,
) -> Result<(), Refusal>
    ensures judged { (o : Option NamedType) → Judges found o → Leads result (introduced heads.now context.now name.now scope.old o) scope.new }
    ensures kept { Keeps scope.old scope.new }
{
    let t = found?;
    if !may_introduce(heads, context, scope, name) {
        return Err(Refusal::IllTyped);
    }
    scope.push(alloc, name, t)?;
    Ok(())
}
