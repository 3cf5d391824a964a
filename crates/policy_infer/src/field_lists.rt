//! What is asked of the names and the types that are given for declared fields.

ghost use Rattle.std.specs.Prelude.{◌≡◌, ◌&&◌, Some, length, map, IfOk, OnOk, List, ℕ};
ghost use Rattle.std.specs.List.{list_all};
ghost use Rattle.std.specs.Option.{option_copied};
ghost use Rattle.std.specs.Str.{bytes_eq};
ghost use Rattle.policy_heads.specs.Views.{fact_view};
ghost use Rattle.policy_rules.specs.Expressions.{value_part};
ghost use Rattle.policy_rules.specs.FieldLists.{are_distinct, are_leading_keys, arguments_fit, fit_fields, fit_values, fits_some, gap_fits, gaps_are_last, in_any_order, in_declared_order, pattern_fits};
ghost use Rattle.policy_rules.specs.Names.{is_among};
ghost use Rattle.policy_rules.specs.Scopes.{names_in, type_in};
ghost use Rattle.policy_infer.specs.working.Answers.{AreNames};

use base_bytes::NoMemory;
use policy_ast::{Bind, Expr, Free, Name, Pattern};
use policy_heads::{FactHead, NameSet, fits};
use policy_rules::{Named, NamedType};
use std::alloc::Global;

/// The type of the field of this name.
pub fn type_in<'a>(fields: &'a [Named], name: &Name) -> Option<&'a NamedType>
    ensures { option_copied result ≡ type_in fields.now name.now }
{
    for field in fields {
        if *name == field.name {
            return Some(&field.ty);
        }
    }
    None
}

/// Arguments: as many as parameters, and each fits its parameter.
pub fn arguments_fit(types: &[NamedType], parameters: &[Named]) -> bool
    ensures { result ≡ arguments_fit types.now parameters.now }
{
    if types.len() != parameters.len() {
        return false;
    }
    for i in 0..types.len() {
        if !fits(&types[i], &parameters[i].ty) {
            return false;
        }
    }
    true
}

/// All fields in declared order, each with a type that fits.
pub fn in_declared_order(fields: &[Named], binds: &[Bind<Expr>], types: &[NamedType]) -> bool
    requires { length types.now ≡ length binds.now }
    ensures { result ≡ in_declared_order fields.now (map (λ b. b.name) binds.now) types.now }
{
    if binds.len() != fields.len() {
        return false;
    }
    for i in 0..binds.len() {
        if binds[i].name != fields[i].name || !fits(&types[i], &fields[i].ty) {
            return false;
        }
    }
    true
}

/// Whether the type fits that of the field of this name.
fn fits_field(fields: &[Named], name: &Name, t: &NamedType) -> bool
    ensures { result ≡ fits_some t.now (type_in fields.now name.now) }
{
    match type_in(fields, name) {
        Some(u) => fits(t, u),
        None => false,
    }
}

/// Whether each name is a field's, and its type fits that field's type.
fn fit_fields(fields: &[Named], binds: &[Bind<Expr>], types: &[NamedType]) -> bool
    requires { length types.now ≡ length binds.now }
    ensures { result ≡ fit_fields fields.now (map (λ b. b.name) binds.now) types.now }
{
    for i in 0..binds.len() {
        if !fits_field(fields, &binds[i].name, &types[i]) {
            return false;
        }
    }
    true
}

/// The names of the binds, and None where two are the same.
#[tactic(auto, using(crate::proofs::FieldFacts::one_new, crate::proofs::FieldFacts::not_new, crate::proofs::FieldFacts::none_new))]
fn distinct_names<'a>(
    alloc: Global,
    binds: &'a [Bind<Expr>],
) -> Result<Option<NameSet<'a>>, NoMemory>
    ensures { IfOk result (λ names. AreNames (map (λ b. b.name) binds.now) names) }
{
    let mut names = NameSet::new(alloc);
    for bind in binds {
        if !names.insert(&bind.name)? {
            return Ok(None);
        }
    }
    Ok(Some(names))
}

/// The same for the fields of a pattern.
#[tactic(auto, using(crate::proofs::FieldFacts::one_new, crate::proofs::FieldFacts::not_new, crate::proofs::FieldFacts::none_new))]
fn distinct_fields<'a>(
    alloc: Global,
    fields: &'a [Free<Expr>],
) -> Result<Option<NameSet<'a>>, NoMemory>
    ensures { IfOk result (λ names. AreNames (map (λ f. f.name) fields.now) names) }
{
    let mut names = NameSet::new(alloc);
    for field in fields {
        if !names.insert(&field.name)? {
            return Ok(None);
        }
    }
    Ok(Some(names))
}

fn are_among(fields: &[Named], names: &NameSet<'_>) -> bool
    ensures { result ≡ list_all (λ field. is_among field names.now) (names_in fields.now) }
{
    for field in fields {
        if !names.contains(&field.name) {
            return false;
        }
    }
    true
}

/// Each field once, in any order, with a type that fits.
pub fn in_any_order(
    alloc: Global,
    fields: &[Named],
    binds: &[Bind<Expr>],
    types: &[NamedType],
) -> Result<bool, NoMemory>
    requires { length types.now ≡ length binds.now }
    ensures { IfOk result (λ is. is ≡ in_any_order fields.now (map (λ b. b.name) binds.now) types.now) }
{
    let Some(names) = distinct_names(alloc, binds)? else {
        return Ok(false);
    };
    if !fit_fields(fields, binds, types) {
        return Ok(false);
    }
    Ok(are_among(fields, &names))
}

/// Whether an expression, or a `?` in its place, fits the field of this name.
fn gap_fits(fields: &[Named], name: &Name, gap: &Option<NamedType>) -> bool
    ensures { result ≡ gap_fits gap.now (type_in fields.now name.now) }
{
    match gap {
        Some(t) => fits_field(fields, name, t),
        None => type_in(fields, name).is_some(),
    }
}

/// Whether an expression, or a `?` in its place, is given for this key.
fn key_fits(key: &Named, field: &Free<Expr>, gap: &Option<NamedType>) -> bool
    ensures { result ≡ (bytes_eq field.now.name key.now.name && gap_fits gap.now (Some key.now.ty)) }
{
    field.name == key.name && gap.as_ref().is_none_or(|t| fits(t, &key.ty))
}

/// A leading part of the keys, in declared order, where each expression fits its key.
fn are_leading_keys(keys: &[Named], fields: &[Free<Expr>], gaps: &[Option<NamedType>]) -> bool
    requires { length gaps.now ≡ length fields.now }
    ensures { result ≡ are_leading_keys keys.now (map (λ f. f.name) fields.now) gaps.now }
{
    if keys.len() < fields.len() {
        return false;
    }
    for i in 0..fields.len() {
        if !key_fits(&keys[i], &fields[i], &gaps[i]) {
            return false;
        }
    }
    true
}

/// Whether no expression follows a `?`.
fn gaps_are_last(gaps: &[Option<NamedType>]) -> bool
    ensures { result ≡ gaps_are_last gaps.now }
{
    let mut is_behind = false;
    for gap in gaps {
        if gap.is_none() {
            is_behind = true;
        } else if is_behind {
            return false;
        }
    }
    true
}

/// Whether each name is a value field's, and its expression fits that field's type.
fn fit_values(values: &[Named], fields: &[Free<Expr>], gaps: &[Option<NamedType>]) -> bool
    requires { length gaps.now ≡ length fields.now }
    ensures { result ≡ fit_values values.now (map (λ f. f.name) fields.now) gaps.now }
{
    for i in 0..fields.len() {
        if !gap_fits(values, &fields[i].name, &gaps[i]) {
            return false;
        }
    }
    true
}

/// The value fields that a pattern names; the part may be left out.
pub fn value_part(p: &Pattern<Expr>) -> &[Free<Expr>]
    ensures { result.now ≡ value_part p.now.values }
{
    match &p.values {
        Some(fields) => fields.as_slice(),
        None => &[],
    }
}

/// What a pattern names of a fact: a leading part of its keys, where no expression follows a `?`, and any value fields, each once.
pub fn pattern_fits(
    alloc: Global,
    fact: FactHead<'_>,
    p: &Pattern<Expr>,
    keys: &[Option<NamedType>],
    values: &[Option<NamedType>],
) -> Result<bool, NoMemory>
    requires keys { length keys.now ≡ length p.now.keys }
    requires values { length values.now ≡ length (value_part p.now.values) }
    ensures { IfOk result (λ is. is ≡ pattern_fits (fact_view fact.entry) (map (λ f. f.name) p.now.keys) keys.now (map (λ f. f.name) (value_part p.now.values)) values.now) }
{
    if !are_leading_keys(fact.keys, p.keys.as_slice(), keys) || !gaps_are_last(keys) {
        return Ok(false);
    }
    let fields = value_part(p);
    match distinct_fields(alloc, fields)? {
        Some(_) => Ok(fit_values(fact.values, fields, values)),
        None => Ok(false),
    }
}
