//! Whether the bodies of items are well typed.

ghost use Rattle.std.specs.Prelude.{◌≡◌, true, Bool, IfOk, OnOk, length, take};
ghost use Rattle.policy_rules.specs.FieldLists.{are_distinct};
ghost use Rattle.policy_rules.specs.Scopes.{names_in};
ghost use Rattle.policy_rules.specs.Judging.{body_is, finish_stmts_are};
ghost use Rattle.policy_infer.specs.working.Answers.{Allows};

use crate::finish::finish_stmts;
use crate::passing::Allowed;
use crate::refusal::Refusal;
use crate::scope::Scope;
use crate::statements::judge_all;
use base_bytes::NoMemory;
use policy_ast::{FinishStmt, Stmt};
use policy_heads::{Heads, copy_type};
use policy_rules::{Context, Named};
use std::alloc::Global;

/// The scope with which a body begins: its parameters.
fn scope_of(alloc: Global, parameters: &[Named]) -> Result<Scope, NoMemory>
    requires { are_distinct (names_in parameters.now) ≡ true }
    ensures { IfOk result (λ scope. scope ≡ parameters.now) }
{
    let mut scope = Scope::new(alloc);
    for parameter in parameters {
        let t = copy_type(alloc, &parameter.ty)?;
        scope.push(alloc, &parameter.name, t)?;
    }
    Ok(scope)
}

/// Whether a test is passed.
fn is_allowed(allowed: Allowed) -> Result<bool, NoMemory>
    ensures { (b : Bool) → Allows allowed b → IfOk result (λ is. is ≡ b) }
{
    match allowed {
        Ok(()) => Ok(true),
        Err(Refusal::IllTyped) => Ok(false),
        Err(Refusal::NoMemory) => Err(NoMemory),
    }
}

/// Whether the body of a function or an action, or a policy or recall block, is well typed in its context. Its scope begins with the
/// parameters, whose names differ; a command's blocks have none. Answers `NoMemory` for want of memory and nothing else.
pub fn body_is(
    alloc: Global,
    heads: &Heads<'_>,
    context: &Context,
    parameters: &[Named],
    body: &[Stmt],
) -> Result<bool, NoMemory>
    requires { are_distinct (names_in parameters.now) ≡ true }
    ensures { IfOk result (λ is. is ≡ body_is heads.now context.now body.now parameters.now) }
{
    let mut scope = scope_of(alloc, parameters)?;
    is_allowed(judge_all(alloc, heads, context, &mut scope, body))
}

/// The same for the body of a finish function.
pub fn finish_stmts_are(
    alloc: Global,
    heads: &Heads<'_>,
    context: &Context,
    parameters: &[Named],
    body: &[FinishStmt],
) -> Result<bool, NoMemory>
    requires { are_distinct (names_in parameters.now) ≡ true }
    ensures { IfOk result (λ is. is ≡ finish_stmts_are heads.now context.now body.now parameters.now) }
{
    let mut scope = scope_of(alloc, parameters)?;
    is_allowed(finish_stmts(alloc, heads, context, &mut scope, body))
}
