//! The arms of a `match`: what they take, and that one of them takes each value.

ghost use Rattle.std.specs.Prelude.{◌≡◌, ◌&&◌, ◌++◌, map, nat_lt, IfOk, OnOk, Option};
ghost use Rattle.std.specs.List.{list_all, list_any};
ghost use Rattle.policy_ast.specs.declared.literal.Literal.TheVariants as literal;
ghost use Rattle.policy_ast.specs.declared.pattern.PatternLiteral.TheVariants as pattern;
ghost use Rattle.policy_rules.specs.Coverage.{all_listed, any_is_last, are_arm_patterns, arms_cover, is_any, listed, lists_all_values, may_match, pattern_type, same_pattern, some_fits};
ghost use Rattle.policy_rules.specs.declared.types.NamedType.{NamedType};
ghost use Rattle.policy_infer.specs.working.Answers.{Allows, Judges};
ghost use Rattle.policy_infer.specs.working.Behind.{matches_of};
ghost use Rattle.policy_infer.specs.working.Listed.{AreListed};

use crate::forms::Typed;
use crate::passing::{Allowed, allowed};
use crate::pattern_set::PatternSet;
use base_bytes::NoMemory;
use policy_ast::{Arm, ArmPattern, Name, PatternLiteral, Stmt};
use policy_heads::{Heads, fits};
use policy_rules::NamedType;
use std::alloc::Global;

/// Whether a value of the type may be matched: an int, a bool, a string, an enum or an optional.
fn may_match(heads: &Heads<'_>, t: &NamedType) -> bool
    ensures { result ≡ may_match heads.now t.now }
{
    match t {
        NamedType::Int | NamedType::Bool | NamedType::Str | NamedType::Optional(_) => true,
        NamedType::Enum(name) => heads.enum_named(name).is_some(),
        NamedType::Raw | NamedType::Ident | NamedType::Struct(_) | NamedType::Never => false,
    }
}

/// Whether the type of the value that an arm lists fits.
fn pattern_fits(
    alloc: Global,
    heads: &Heads<'_>,
    pattern: &PatternLiteral,
    t: &NamedType,
) -> Result<bool, NoMemory>
    ensures { IfOk result (λ is. is ≡ some_fits (pattern_type heads.now pattern.now) t.now) }
{
    match pattern {
        PatternLiteral::Literal(literal) => match heads.literal_type(alloc, literal)? {
            Some(u) => Ok(fits(&u, t)),
            None => Ok(false),
        },
        PatternLiteral::None => Ok(matches!(t, NamedType::Optional(_))),
    }
}

fn push_all<'a>(
    all: &mut Vec<&'a PatternLiteral>,
    literals: &'a [PatternLiteral],
) -> Result<(), NoMemory>
    ensures { OnOk result (map (λ p. p.now) all.new.items ≡ map (λ p. p.now) all.old.items ++ literals.now) }
{
    for literal in literals {
        all.push(literal)?;
    }
    Ok(())
}

/// Adds the values that an arm lists.
fn push_listed<'a>(
    all: &mut Vec<&'a PatternLiteral>,
    pattern: &'a ArmPattern,
) -> Result<(), NoMemory>
    ensures { OnOk result (map (λ p. p.now) all.new.items ≡ map (λ p. p.now) all.old.items ++ listed pattern.now) }
{
    match pattern {
        ArmPattern::Any => Ok(()),
        ArmPattern::Literals(literals) => push_all(all, literals.as_slice()),
    }
}

/// The values that all arms list, in order.
fn all_listed<'a>(alloc: Global, arms: &'a [Arm<Stmt>]) -> Result<Vec<&'a PatternLiteral>, NoMemory>
    ensures { IfOk result (λ all. map (λ p. p.now) all.items ≡ all_listed (map (λ a. a.pattern) arms.now)) }
{
    let mut all = Vec::new(alloc);
    for arm in arms {
        push_listed(&mut all, &arm.pattern)?;
    }
    Ok(all)
}

/// Whether the types of all values fit.
fn all_fit(
    alloc: Global,
    heads: &Heads<'_>,
    values: &[&PatternLiteral],
    t: &NamedType,
) -> Result<bool, NoMemory>
    ensures { IfOk result (λ is. is ≡ list_all (λ p. some_fits (pattern_type heads.now p) t.now) (map (λ p. p.now) values.now)) }
{
    for value in values {
        if !pattern_fits(alloc, heads, value, t)? {
            return Ok(false);
        }
    }
    Ok(true)
}

/// The values as a set, and None where two are the same.
fn distinct_values<'a>(
    alloc: Global,
    values: &[&'a PatternLiteral],
) -> Result<Option<PatternSet<'a>>, NoMemory>
    ensures { IfOk result (λ set. AreListed (map (λ p. p.now) values.now) set) }
{
    let mut set = PatternSet::new(alloc);
    for value in values {
        if !set.insert(value)? {
            return Ok(None);
        }
    }
    Ok(Some(set))
}

/// Whether the arm is `_` and has others behind it.
fn is_misplaced(arm: &Arm<Stmt>, behind: usize) -> bool
    ensures { result ≡ (is_any arm.now.pattern && nat_lt 0 behind) }
{
    matches!(arm.pattern, ArmPattern::Any) && 0 < behind
}

/// Whether `_` stands last, if at all.
fn any_is_last(arms: &[Arm<Stmt>]) -> bool
    ensures { result ≡ any_is_last (map (λ a. a.pattern) arms.now) }
{
    for i in 0..arms.len() {
        if is_misplaced(&arms[i], arms.len() - i - 1) {
            return false;
        }
    }
    true
}

fn has_any(arms: &[Arm<Stmt>]) -> bool
    ensures { result ≡ list_any is_any (map (λ a. a.pattern) arms.now) }
{
    for arm in arms {
        if matches!(arm.pattern, ArmPattern::Any) {
            return true;
        }
    }
    false
}

fn lists_variants(name: &Name, variants: &[Name], set: &PatternSet<'_>) -> bool
    ensures { result ≡ list_all (λ variant. list_any (same_pattern (pattern.Literal (literal.Variant name.now variant))) set.now) variants.now }
{
    for variant in variants {
        if !set.has_variant(name, variant) {
            return false;
        }
    }
    true
}

/// Whether all values of a bool or an enum are listed.
fn lists_all_values(heads: &Heads<'_>, t: &NamedType, set: &PatternSet<'_>) -> bool
    ensures { result ≡ lists_all_values heads.now t.now set.now }
{
    match t {
        NamedType::Bool => {
            let has_true = set.has_true();
            let has_false = set.has_false();
            has_true && has_false
        }
        NamedType::Enum(name) => match heads.enum_named(name) {
            Some(variants) => lists_variants(name, variants, set),
            None => true,
        },
        NamedType::Int
        | NamedType::Str
        | NamedType::Raw
        | NamedType::Ident
        | NamedType::Struct(_)
        | NamedType::Optional(_)
        | NamedType::Never => false,
    }
}

/// Whether there is an arm, `_` stands last, and it is there or all values are listed.
fn arms_cover(heads: &Heads<'_>, t: &NamedType, arms: &[Arm<Stmt>], set: &PatternSet<'_>) -> bool
    requires { set.now ≡ all_listed (map (λ a. a.pattern) arms.now) }
    ensures { result ≡ arms_cover heads.now t.now (map (λ a. a.pattern) arms.now) }
{
    if arms.is_empty() || !any_is_last(arms) {
        return false;
    }
    if has_any(arms) {
        return true;
    }
    lists_all_values(heads, t, set)
}

/// The same, by the values that the arms list.
fn values_are_taken(
    alloc: Global,
    heads: &Heads<'_>,
    t: &NamedType,
    arms: &[Arm<Stmt>],
    values: &[&PatternLiteral],
) -> Result<bool, NoMemory>
    requires { map (λ p. p.now) values.now ≡ all_listed (map (λ a. a.pattern) arms.now) }
    ensures { IfOk result (λ is. is ≡ are_arm_patterns heads.now t.now (map (λ a. a.pattern) arms.now)) }
{
    if !may_match(heads, t) || !all_fit(alloc, heads, values, t)? {
        return Ok(false);
    }
    let Some(set) = distinct_values(alloc, values)? else {
        return Ok(false);
    };
    Ok(arms_cover(heads, t, arms, &set))
}

/// The patterns of a `match` over a value of this type: their values fit it and are distinct, and one of the arms takes each value.
fn are_arm_patterns(
    alloc: Global,
    heads: &Heads<'_>,
    t: &NamedType,
    arms: &[Arm<Stmt>],
) -> Result<bool, NoMemory>
    ensures { IfOk result (λ is. is ≡ are_arm_patterns heads.now t.now (map (λ a. a.pattern) arms.now)) }
{
    let values = all_listed(alloc, arms)?;
    values_are_taken(alloc, heads, t, arms, values.as_slice())
}

/// The head of a `match`, by the type that was found of its expression.
pub fn matches_of(alloc: Global, heads: &Heads<'_>, arms: &[Arm<Stmt>], found: Typed) -> Allowed
    ensures { (o : Option NamedType) → Judges found o → Allows result (matches_of heads.now arms.now o) }
{
    let t = found?;
    allowed(are_arm_patterns(alloc, heads, &t, arms)?)
}
