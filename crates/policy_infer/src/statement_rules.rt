//! What statements ask of the types that were found of their expressions.

ghost use Rattle.std.specs.Prelude.{Option};
ghost use Rattle.std.specs.Option.{is_some};
ghost use Rattle.policy_rules.specs.declared.types.NamedType.{NamedType};
ghost use Rattle.policy_rules.specs.declared.types.NamedType.TheVariants as ty;
ghost use Rattle.policy_infer.specs.working.Answers.{Allows, Judges, LeadsOn, Tests};
ghost use Rattle.policy_infer.specs.working.Behind.{mapped, publishes_of, returns_of};
ghost use Rattle.policy_infer.specs.working.Types.{pattern_type};

use crate::expressions::{pattern_keys, pattern_values};
use crate::forms::{Typed, struct_name};
use crate::passing::{Allowed, allowed, is_typed};
use crate::refusal::Refusal;
use crate::scope::Scope;
use crate::uses::{introduce, pattern_type, struct_type};
use policy_ast::{Expr, Name, Pattern};
use policy_heads::{Heads, fits};
use policy_rules::{Block, Context, NamedType};
use std::alloc::Global;

/// What `publish` takes: in actions, a command's struct.
pub fn publishes_of(heads: &Heads<'_>, context: &Context, found: Typed) -> Allowed
    ensures { (o : Option NamedType) → Judges found o → Allows result (publishes_of heads.now context.now o) }
{
    let name = struct_name(found)?;
    allowed(context.block == Block::Action && heads.is_command_named(&name))
}

/// What `return` takes: in functions, a type that fits the declared one.
pub fn returns_of(context: &Context, found: Typed) -> Allowed
    ensures { (o : Option NamedType) → Judges found o → Allows result (returns_of context.now o) }
{
    let Some(result) = &context.result else {
        return Err(Refusal::IllTyped);
    };
    let t = found?;
    allowed(fits(&t, result))
}

/// A pattern is one of its fact's rows.
pub fn is_pattern(
    alloc: Global,
    heads: &Heads<'_>,
    context: &Context,
    scope: &mut Scope,
    p: &Pattern<Expr>,
) -> Allowed
    ensures { Tests result (λ scope. is_some (pattern_type heads.now context.now p.now ty.Bool scope)) scope.old scope.new }
{
    let keys = pattern_keys(alloc, heads, context, scope, p);
    let values = pattern_values(alloc, heads, context, scope, p);
    is_typed(pattern_type(alloc, heads, p, keys, values, Ok(NamedType::Bool)))
}

/// The head of a `map`, in actions: the name that stands for each row comes behind the scope.
pub fn begin_map(
    alloc: Global,
    heads: &Heads<'_>,
    context: &Context,
    scope: &mut Scope,
    p: &Pattern<Expr>,
    name: &Name,
) -> Allowed
    ensures { LeadsOn result (mapped heads.now context.now p.now name.now) scope.old scope.new }
{
    if context.block != Block::Action {
        return Err(Refusal::IllTyped);
    }
    is_pattern(alloc, heads, context, scope, p)?;
    let row = struct_type(alloc, &p.fact);
    introduce(alloc, heads, context, scope, name, row)
}
