//! The call that a command of the graph is.

ghost use Rattle.std.specs.Prelude.{◌≡◌, ◌<◌, ◌^◌, length, map, IfOk, IfSome, IsTrue, option_and_then};
ghost use Rattle.base_bytes.specs.Reaching.{NoneReachesItself};
ghost use Rattle.base_bytes.specs.Values.{are_fields, has_type, shape_at};
ghost use Rattle.base_bytes.specs.declared.ty.Ty.TheVariants as ty;
ghost use Rattle.command.specs.Wire.{IsInForm};
ghost use Rattle.policy_meaning.specs.Commands.{IsCallBy, IsCallOf, call_by, call_of, command_number};
ghost use Rattle.policy_meaning.specs.Payloads.{fields_of, payload_fields, read_value};
ghost use Rattle.policy_meaning.specs.Typed.{IsCommandOf, holds_at, is_command_of};
ghost use Rattle.policy_rules.specs.Shapes.{shapes_of};
ghost use Rattle.policy_rules.specs.WellTyped.{items_of};

use crate::Call;
use crate::names::{item_named, number_named};
use base_bytes::{Id, NoMemory, Shapes, Text, Ty, Value, Values, decode_value};
use command::{Command, id_of};
use policy_ast::{Item, PlacedItem, Policy};
use std::alloc::Global;

/// The call that a command is by a policy of these shapes. It is None exactly where the policy declares no command of its name, or where its payload is
/// no value of the fields; a merge is none.
#[tactic(auto, unfolding(crate::specs::Commands::call_of, crate::specs::Typed::IsCommandOf))]
pub fn call_of(
    alloc: Global,
    policy: &Policy,
    shapes: &Shapes,
    command: &Command,
) -> Result<Option<Call>, NoMemory>
    requires shapes { shapes.now ≡ shapes_of (items_of policy.now) }
    requires finite { NoneReachesItself shapes.now }
    requires formed { IsInForm command.now }
    ensures is_call { IfOk result (IsCallOf policy.now command.now) }
    ensures call { IfOk result (λ call. call ≡ call_of policy.now command.now) }
    ensures declared { IfOk result (λ o. IfSome o (λ call. IsCommandOf policy.now call.command call.fields)) }
{
    match command {
        Command::Init {
            author,
            name,
            payload,
            ..
        } => call_by(
            alloc,
            policy.items(),
            shapes,
            id_of(command),
            name,
            payload.as_slice(),
            *author,
        ),
        Command::Basic {
            author,
            name,
            payload,
            ..
        } => call_by(
            alloc,
            policy.items(),
            shapes,
            id_of(command),
            name,
            payload.as_slice(),
            *author,
        ),
        Command::Finalize {
            author,
            name,
            payload,
            ..
        } => call_by(
            alloc,
            policy.items(),
            shapes,
            id_of(command),
            name,
            payload.as_slice(),
            *author,
        ),
        Command::Merge { .. } => Ok(None),
    }
}

fn call_by(
    alloc: Global,
    items: &[PlacedItem],
    shapes: &Shapes,
    id: Id,
    name: &Text,
    payload: &[u8],
    author: Id,
) -> Result<Option<Call>, NoMemory>
    requires few { length items.now < 2 ^ 32 }
    requires shapes { shapes.now ≡ shapes_of (items_of items.now) }
    requires finite { NoneReachesItself shapes.now }
    ensures is_call { IfOk result (IsCallBy (items_of items.now) id (record { name = name.now; payload = payload.now; author = author })) }
    ensures call { IfOk result (λ call. call ≡ call_by (items_of items.now) id record { name = name.now; payload = payload.now; author = author }) }
    ensures declared { IfOk result (λ o. IfSome o (λ call. IsTrue (holds_at (items_of items.now) call.command (is_command_of (items_of items.now) call.fields)))) }
{
    match command_number(items, name.as_slice()) {
        Some(command) => match payload_fields(alloc, shapes, command, payload)? {
            Some(fields) => Ok(Some(Call {
                command,
                fields,
                author,
                id,
            })),
            None => Ok(None),
        },
        None => Ok(None),
    }
}

/// The item number of the command of this name, where there is one.
fn command_number(items: &[PlacedItem], name: &[u8]) -> Option<u32>
    requires { length items.now < 2 ^ 32 }
    ensures { result ≡ command_number (items_of items.now) name.now }
{
    match item_named(items, name) {
        Some(Item::Command(_, _)) => match number_named(items, name) {
            Some(number) => Some(number as u32),
            None => None,
        },
        _ => None,
    }
}

fn payload_fields(
    alloc: Global,
    shapes: &Shapes,
    number: u32,
    payload: &[u8],
) -> Result<Option<Values>, NoMemory>
    requires { NoneReachesItself shapes.now }
    ensures fields { IfOk result (λ fields. fields ≡ option_and_then fields_of (read_value shapes.now (ty.Struct number) payload.now)) }
    ensures typed { IfOk result (λ o. IfSome o (λ fields. IsTrue (are_fields (map (has_type shapes.now) fields) (shape_at shapes.now number)))) }
{
    match read_value(alloc, shapes, &Ty::Struct(number), payload)? {
        Some(value) => Ok(fields_of(value)),
        None => Ok(None),
    }
}

fn fields_of(value: Value) -> Option<Values>
    ensures { result ≡ fields_of value }
{
    match value {
        Value::Struct(_, fields) => Some(fields),
        _ => None,
    }
}

fn read_value(
    alloc: Global,
    shapes: &Shapes,
    t: &Ty,
    bytes: &[u8],
) -> Result<Option<Value>, NoMemory>
    requires { NoneReachesItself shapes.now }
    ensures value { IfOk result (λ found. found ≡ read_value shapes.now t.now bytes.now) }
    ensures typed { IfOk result (λ o. IfSome o (λ value. IsTrue (has_type shapes.now value t.now))) }
{
    decode_value(alloc, shapes, t, bytes)
}
