//! Calls of `envelope::..` and `device::..`.

ghost use Rattle.std.specs.Prelude.{◌≡◌, Some};
ghost use Rattle.policy_rules.specs.Expressions.{is_device_call, is_envelope_call};
ghost use Rattle.policy_rules.specs.declared.types.NamedType.TheVariants as ty;
ghost use Rattle.policy_rules.specs.Inference.{is_foreign_call, is_one_envelope, only_if};
ghost use Rattle.policy_infer.specs.working.Answers.{Judges};
ghost use Rattle.policy_infer.specs.working.Types.{are_envelopes, is_envelope};

use crate::forms::Typed;
use crate::refusal::Refusal;
use policy_ast::{Expr, Name};
use policy_rules::{Block, Context, NamedType};

/// Whether the expression is the name `envelope`.
fn is_envelope(e: &Expr) -> bool
    ensures { result ≡ is_envelope e.now }
{
    match e {
        Expr::Name(name) => name.as_str() == "envelope",
        _ => false,
    }
}

fn is_one_envelope(arguments: &[Expr]) -> bool
    ensures { result ≡ is_one_envelope (are_envelopes arguments.now) }
{
    arguments.len() == 1 && is_envelope(&arguments[0])
}

/// `envelope::author_id` and `envelope::command_id`
fn is_envelope_call(of: &Name, called: &Name) -> bool
    ensures { result ≡ is_envelope_call of.now called.now }
{
    let called = called.as_str();
    of.as_str() == "envelope" && (called == "author_id" || called == "command_id")
}

/// `device::current_device_id`
fn is_device_call(of: &Name, called: &Name) -> bool
    ensures { result ≡ is_device_call of.now called.now }
{
    of.as_str() == "device" && called.as_str() == "current_device_id"
}

fn is_foreign_call(context: &Context, of: &Name, called: &Name, arguments: &[Expr]) -> bool
    ensures { result ≡ is_foreign_call context.now of.now called.now (are_envelopes arguments.now) }
{
    let is_of_envelope = is_envelope_call(of, called)
        && context.block == Block::Command
        && is_one_envelope(arguments);
    let is_of_device = is_device_call(of, called)
        && context.block == Block::Action
        && arguments.is_empty();
    is_of_envelope || is_of_device
}

/// The calls have the argument `envelope` in policy and recall blocks, and none in actions.
pub fn foreign_call_type(context: &Context, of: &Name, called: &Name, arguments: &[Expr]) -> Typed
    ensures { Judges result (only_if (is_foreign_call context.now of.now called.now (are_envelopes arguments.now)) (Some ty.Ident)) }
{
    if is_foreign_call(context, of, called, arguments) {
        Ok(NamedType::Ident)
    } else {
        Err(Refusal::IllTyped)
    }
}
