//! A command held against the policy, before any facts are looked at.

ghost use Rattle.std.specs.Prelude.{◌≡◌, IfOk, IfSome, option_map};
ghost use Rattle.std.specs.Option.{option_copied};
ghost use Rattle.accept.specs.Admission.{is_of_kind};
ghost use Rattle.accept.specs.working.Forms.{IsForm};
ghost use Rattle.braid_run.specs.Soundness.{declared_kind};
ghost use Rattle.command.specs.Wire.{IsInForm};
ghost use Rattle.command_kinds.specs.Kinds.{kind_seen};
ghost use Rattle.policy_meaning.specs.Commands.{call_of, content_of};
ghost use Rattle.policy_meaning.specs.Typed.{IsCommandOf};
ghost use Rattle.policy_rules.specs.Names.{is_named, item_named};
ghost use Rattle.policy_rules.specs.WellTyped.{IsWellTyped, items_of};

use base_bytes::{NoMemory, Text};
use command::Command;
use command_kinds::{Kind, command_kind};
use policy_ast::{Item, PlacedItem, Policy};
use policy_heads::name_of;
use policy_meaning::{Call, Why, call_of, shapes};
use policy_rules::laws::structs_are_finite;
use std::alloc::Global;

/// What is against a command by the policy, or the call that it is.
#[derive(Drop)]
pub enum Form {
    Ill(Why),
    Called(Call),
    Merge,
}

fn is_named(item: &Item, name: &[u8]) -> bool
    ensures { result ≡ is_named name.now item.now }
{
    match name_of(item) {
        Some(own) => name == own.as_str().as_bytes(),
        None => false,
    }
}

/// The item that a name means. This stands in `policy_meaning` too, to be given out there.
fn item_named<'a>(items: &'a [PlacedItem], name: &[u8]) -> Option<&'a Item>
    ensures { option_copied result ≡ item_named (items_of items.now) name.now }
{
    for placed in items {
        if is_named(&placed.item, name) {
            return Some(&placed.item);
        }
    }
    None
}

/// The kind that the policy declares for commands of this name.
fn declared_kind(policy: &Policy, name: &Text) -> Option<Kind>
    requires { IsWellTyped policy.now }
    ensures { option_map kind_seen result ≡ declared_kind policy.now name.now }
{
    match item_named(policy.items(), name.as_slice()) {
        Some(Item::Command(_, sections)) => Some(command_kind(sections.as_slice())),
        _ => None,
    }
}

/// Whether the command is of this kind, and has its priority.
fn is_of_kind(kind: Kind, command: &Command) -> bool
    ensures { result ≡ is_of_kind (kind_seen kind) command.now }
{
    match kind {
        Kind::Init => matches!(command, Command::Init { .. }),
        Kind::Basic(declared) => match command {
            Command::Basic { priority, .. } => declared == *priority,
            _ => false,
        },
        Kind::Finalize => matches!(command, Command::Finalize { .. }),
    }
}

/// The name of a command; a merge has none.
fn command_name(command: &Command) -> Option<&Text>
    ensures { option_copied result ≡ option_map (λ content. content.name) (content_of command.now) }
{
    match command {
        Command::Init { name, .. } => Some(name),
        Command::Basic { name, .. } => Some(name),
        Command::Finalize { name, .. } => Some(name),
        Command::Merge { .. } => None,
    }
}

/// The call that a command is by the policy.
fn call(alloc: Global, policy: &Policy, command: &Command) -> Result<Option<Call>, NoMemory>
    requires well_typed { IsWellTyped policy.now }
    requires formed { IsInForm command.now }
    ensures call { IfOk result (λ call. call ≡ call_of policy.now command.now) }
    ensures declared { IfOk result (λ o. IfSome o (λ call. IsCommandOf policy.now call.command call.fields)) }
{
    structs_are_finite();
    let shapes = shapes(alloc, policy)?;
    call_of(alloc, policy, &shapes, command)
}

/// Holds a command against the policy: its name, its kind and priority, its payload.
pub fn form_of(alloc: Global, policy: &Policy, command: &Command) -> Result<Form, NoMemory>
    requires well_typed { IsWellTyped policy.now }
    requires formed { IsInForm command.now }
    ensures { IfOk result (IsForm policy.now command.now) }
{
    let Some(name) = command_name(command) else {
        return Ok(Form::Merge);
    };
    let Some(kind) = declared_kind(policy, name) else {
        return Ok(Form::Ill(Why::UnknownCommand));
    };
    if !is_of_kind(kind, command) {
        return Ok(Form::Ill(Why::WrongKind));
    }
    match call(alloc, policy, command)? {
        Some(call) => Ok(Form::Called(call)),
        None => Ok(Form::Ill(Why::Payload)),
    }
}
