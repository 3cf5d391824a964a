//! Functions, finish functions and actions: their parameters and their bodies.

ghost use Rattle.std.specs.Prelude.{◌≡◌, ◌&&◌, true, IfOk};
ghost use Rattle.policy_rules.specs.FieldLists.{are_distinct};
ghost use Rattle.policy_rules.specs.Heads.{type_exists};
ghost use Rattle.policy_rules.specs.Items.{are_parameters, in_action, in_finish_function, in_function};
ghost use Rattle.policy_rules.specs.Scopes.{names_in};
ghost use Rattle.policy_rules.specs.Statements.{ends_in_return};
ghost use Rattle.policy_rules.specs.Types.{declared, written_type};
ghost use Rattle.policy_rules.specs.Judging.{body_is, finish_stmts_are};

use base_bytes::NoMemory;
use policy_ast::{Field, FieldType, FinishStmt, Stmt};
use policy_heads::{Heads, written_type};
use policy_infer::{body_is, ends_in_return, finish_stmts_are};
use policy_items::are_parameters;
use policy_rules::{Block, Context, Named};
use std::alloc::Global;

fn in_function(alloc: Global, t: &FieldType) -> Result<Context, NoMemory>
    ensures { IfOk result (λ context. context ≡ in_function (written_type t.now)) }
{
    let t = written_type(alloc, t)?;
    Ok(Context {
        block: Block::Function,
        this: None,
        result: Some(t),
    })
}

fn function_body_is(
    alloc: Global,
    heads: &Heads<'_>,
    t: &FieldType,
    scope: &[Named],
    body: &[Stmt],
) -> Result<bool, NoMemory>
    requires { are_distinct (names_in scope.now) ≡ true }
    ensures { IfOk result (λ is. is ≡ body_is heads.now (in_function (written_type t.now)) body.now scope.now) }
{
    let context = in_function(alloc, t)?;
    body_is(alloc, heads, &context, scope, body)
}

/// Whether a function of these parameters, this type of its result and this body is well typed. The parameters with their types are
/// the scope in which the body begins.
pub fn is_function(
    alloc: Global,
    heads: &Heads<'_>,
    parameters: &[Field],
    t: &FieldType,
    scope: &[Named],
    body: &[Stmt],
) -> Result<bool, NoMemory>
    requires { scope.now ≡ declared parameters.now }
    ensures { IfOk result (λ is. is ≡ (are_parameters heads.now parameters.now && (type_exists heads.now t.now
        && (body_is heads.now (in_function (written_type t.now)) body.now scope.now && ends_in_return body.now)))) }
{
    if !are_parameters(alloc, heads, parameters)? || !heads.type_exists(t) {
        return Ok(false);
    }
    Ok(function_body_is(alloc, heads, t, scope, body)? && ends_in_return(body))
}

fn finish_body_is(
    alloc: Global,
    heads: &Heads<'_>,
    scope: &[Named],
    body: &[FinishStmt],
) -> Result<bool, NoMemory>
    requires { are_distinct (names_in scope.now) ≡ true }
    ensures { IfOk result (λ is. is ≡ finish_stmts_are heads.now in_finish_function body.now scope.now) }
{
    let context = Context {
        block: Block::Finish,
        this: None,
        result: None,
    };
    finish_stmts_are(alloc, heads, &context, scope, body)
}

/// Whether a finish function of these parameters and this body is well typed.
pub fn is_finish_function(
    alloc: Global,
    heads: &Heads<'_>,
    parameters: &[Field],
    scope: &[Named],
    body: &[FinishStmt],
) -> Result<bool, NoMemory>
    requires { scope.now ≡ declared parameters.now }
    ensures { IfOk result (λ is. is ≡ (are_parameters heads.now parameters.now && finish_stmts_are heads.now in_finish_function body.now scope.now)) }
{
    if !are_parameters(alloc, heads, parameters)? {
        return Ok(false);
    }
    finish_body_is(alloc, heads, scope, body)
}

fn action_body_is(
    alloc: Global,
    heads: &Heads<'_>,
    scope: &[Named],
    body: &[Stmt],
) -> Result<bool, NoMemory>
    requires { are_distinct (names_in scope.now) ≡ true }
    ensures { IfOk result (λ is. is ≡ body_is heads.now in_action body.now scope.now) }
{
    let context = Context {
        block: Block::Action,
        this: None,
        result: None,
    };
    body_is(alloc, heads, &context, scope, body)
}

/// Whether an action of these parameters and this body is well typed.
pub fn is_action(
    alloc: Global,
    heads: &Heads<'_>,
    parameters: &[Field],
    scope: &[Named],
    body: &[Stmt],
) -> Result<bool, NoMemory>
    requires { scope.now ≡ declared parameters.now }
    ensures { IfOk result (λ is. is ≡ (are_parameters heads.now parameters.now && body_is heads.now in_action body.now scope.now)) }
{
    if !are_parameters(alloc, heads, parameters)? {
        return Ok(false);
    }
    action_body_is(alloc, heads, scope, body)
}
