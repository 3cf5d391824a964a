//! The statements of `finish` blocks and finish functions.

ghost use Rattle.std.specs.Prelude.{◌≡◌, length, map, IfOk, List, Option};
ghost use Rattle.std.specs.List.{list_all};
ghost use Rattle.policy_ast.specs.declared.finish.FinishStmt.TheVariants as finish;
ghost use Rattle.policy_heads.specs.Views.{fact_view};
ghost use Rattle.policy_rules.specs.Finish.{are_plain, are_plain_or_gaps, binds_all_keys, is_bound, is_plain, is_plain_or_gap};
ghost use Rattle.policy_rules.specs.Statements.{within_finish};
ghost use Rattle.policy_rules.specs.declared.types.NamedType.{NamedType};
ghost use Rattle.policy_infer.specs.working.Answers.{Allows, Judges, Tests};
ghost use Rattle.policy_infer.specs.working.Behind.{arguments_of, emits_of, finish_are, finish_is, finishes, keys_bound_of, values_bound_of};

use crate::expressions::{infer, infer_all, infer_binds};
use crate::field_lists::{arguments_fit, in_any_order, in_declared_order, value_part};
use crate::forms::{Typed, struct_name};
use crate::passing::{Allowed, allowed, both_hold};
use crate::plain::{are_plain, are_plain_binds, are_plain_fields, is_plain};
use crate::refusal::Refusal;
use crate::scope::Scope;
use crate::statement_rules::is_pattern;
use crate::uses::AllTyped;
use base_bytes::NoMemory;
use policy_ast::{Bind, Expr, FinishStmt, Free, Name, Pattern};
use policy_heads::{FactHead, Heads, copy_type};
use policy_rules::{Block, Context, Named, NamedType};
use sqlite_items::Items;
use std::alloc::Global;

/// Whether an update's pattern binds all keys, and holds nothing that may not stand inside `finish`.
fn binds_all_keys(fact: FactHead<'_>, p: &Pattern<Expr>) -> bool
    ensures { result ≡ binds_all_keys (fact_view fact.entry) p.now }
{
    let keys = p.keys.as_slice();
    keys.len() == fact.keys.len()
        && are_bound(keys)
        && are_plain_fields(keys)
        && are_plain_fields(value_part(p))
}

/// Whether no `?` stands in place of an expression.
fn are_bound(fields: &[Free<Expr>]) -> bool
    ensures { result ≡ list_all is_bound fields.now }
{
    for field in fields {
        if field.value.is_none() {
            return false;
        }
    }
    true
}

/// Each key of a fact in order.
fn keys_bound(fact: FactHead<'_>, binds: &[Bind<Expr>], found: AllTyped) -> Allowed
    requires { IfOk found (λ types. length types ≡ length binds.now) }
    ensures { (o : Option (List NamedType)) → Judges found o → Allows result (keys_bound_of (fact_view fact.entry) binds.now o) }
{
    let types = found?;
    let is_bound = in_declared_order(fact.keys, binds, types.as_slice());
    allowed(are_plain_binds(binds) && is_bound)
}

/// Each value field of a fact once, in any order.
fn values_bound(alloc: Global, fact: FactHead<'_>, binds: &[Bind<Expr>], found: AllTyped) -> Allowed
    requires { IfOk found (λ types. length types ≡ length binds.now) }
    ensures { (o : Option (List NamedType)) → Judges found o → Allows result (values_bound_of (fact_view fact.entry) binds.now o) }
{
    let types = found?;
    let is_bound = in_any_order(alloc, fact.values, binds, types.as_slice())?;
    allowed(are_plain_binds(binds) && is_bound)
}

/// What `emit` takes: an effect's struct.
fn emits_of(heads: &Heads<'_>, e: &Expr, found: Typed) -> Allowed
    ensures { (o : Option NamedType) → Judges found o → Allows result (emits_of heads.now e.now o) }
{
    let name = struct_name(found)?;
    let is_effect = heads.is_effect_named(&name);
    allowed(is_plain(e) && is_effect)
}

/// The arguments of a finish function.
fn arguments_of(parameters: &[Named], arguments: &[Expr], found: AllTyped) -> Allowed
    ensures { (o : Option (List NamedType)) → Judges found o → Allows result (arguments_of parameters.now arguments.now o) }
{
    let types = found?;
    let fit = arguments_fit(types.as_slice(), parameters);
    allowed(are_plain(arguments) && fit)
}

fn create(
    alloc: Global,
    heads: &Heads<'_>,
    context: &Context,
    scope: &mut Scope,
    name: &Name,
    keys: &[Bind<Expr>],
    values: &[Bind<Expr>],
) -> Allowed
    ensures { Tests result (finish_is heads.now context.now (finish.Create name.now keys.now values.now)) scope.old scope.new }
{
    let Some(fact) = heads.fact_named(name) else {
        return Err(Refusal::IllTyped);
    };
    let first = keys_bound(fact, keys, infer_binds(alloc, heads, context, scope, keys));
    let found = infer_binds(alloc, heads, context, scope, values);
    both_hold(first, values_bound(alloc, fact, values, found))
}

fn update(
    alloc: Global,
    heads: &Heads<'_>,
    context: &Context,
    scope: &mut Scope,
    p: &Pattern<Expr>,
    to: &[Bind<Expr>],
) -> Allowed
    ensures { Tests result (finish_is heads.now context.now (finish.Update p.now to.now)) scope.old scope.new }
{
    let Some(fact) = heads.fact_named(&p.fact) else {
        return Err(Refusal::IllTyped);
    };
    if fact.is_immutable {
        return Err(Refusal::IllTyped);
    }
    let is_pattern = is_pattern(alloc, heads, context, scope, p);
    let found = infer_binds(alloc, heads, context, scope, to);
    let binds = allowed(binds_all_keys(fact, p));
    both_hold(
        is_pattern,
        both_hold(binds, values_bound(alloc, fact, to, found)),
    )
}

fn delete(
    alloc: Global,
    heads: &Heads<'_>,
    context: &Context,
    scope: &mut Scope,
    name: &Name,
    keys: &[Bind<Expr>],
) -> Allowed
    ensures { Tests result (finish_is heads.now context.now (finish.Delete name.now keys.now)) scope.old scope.new }
{
    let Some(fact) = heads.fact_named(name) else {
        return Err(Refusal::IllTyped);
    };
    keys_bound(fact, keys, infer_binds(alloc, heads, context, scope, keys))
}

fn call(
    alloc: Global,
    heads: &Heads<'_>,
    context: &Context,
    scope: &mut Scope,
    name: &Name,
    arguments: &[Expr],
) -> Allowed
    ensures { Tests result (finish_is heads.now context.now (finish.Call name.now arguments.now)) scope.old scope.new }
{
    let Some(parameters) = heads.finish_function_named(name) else {
        return Err(Refusal::IllTyped);
    };
    let found = infer_all(alloc, heads, context, scope, arguments);
    arguments_of(parameters, arguments, found)
}

/// Whether a statement of `finish` is well typed.
fn finish_stmt(
    alloc: Global,
    heads: &Heads<'_>,
    context: &Context,
    scope: &mut Scope,
    s: &FinishStmt,
) -> Allowed
    ensures { Tests result (finish_is heads.now context.now s.now) scope.old scope.new }
{
    match s {
        FinishStmt::Create { fact, keys, values } => {
            let (keys, values) = (keys.as_slice(), values.as_slice());
            create(alloc, heads, context, scope, fact, keys, values)
        }
        FinishStmt::Update { from, to } => {
            update(alloc, heads, context, scope, from, to.as_slice())
        }
        FinishStmt::Delete { fact, keys } => {
            delete(alloc, heads, context, scope, fact, keys.as_slice())
        }
        FinishStmt::Emit(e) => {
            let found = infer(alloc, heads, context, scope, e);
            emits_of(heads, e, found)
        }
        FinishStmt::Call(name, arguments) => {
            call(alloc, heads, context, scope, name, arguments.as_slice())
        }
    }
}

/// Whether all of these are.
pub fn finish_stmts(
    alloc: Global,
    heads: &Heads<'_>,
    context: &Context,
    scope: &mut Scope,
    statements: &[FinishStmt],
) -> Allowed
    ensures { Tests result (finish_are heads.now context.now statements.now) scope.old scope.new }
{
    for s in statements {
        finish_stmt(alloc, heads, context, scope, s)?;
    }
    Ok(())
}

/// The context inside a `finish` block.
fn within_finish(alloc: Global, context: &Context) -> Result<Context, NoMemory>
    ensures { IfOk result (λ inner. inner ≡ within_finish context.now) }
{
    let this = match &context.this {
        Some(name) => Some(name.copy(alloc)?),
        None => None,
    };
    let result = match &context.result {
        Some(t) => Some(copy_type(alloc, t)?),
        None => None,
    };
    Ok(Context {
        block: Block::Finish,
        this,
        result,
    })
}

/// A block of `finish`, in policy and recall blocks.
pub fn finishes(
    alloc: Global,
    heads: &Heads<'_>,
    context: &Context,
    scope: &mut Scope,
    statements: &[FinishStmt],
) -> Allowed
    ensures { Tests result (finishes heads.now context.now statements.now) scope.old scope.new }
{
    if context.block != Block::Command {
        return Err(Refusal::IllTyped);
    }
    let inner = within_finish(alloc, context)?;
    finish_stmts(alloc, heads, &inner, scope, statements)
}
