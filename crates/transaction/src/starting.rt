ghost use Rattle.std.specs.Prelude.{◌≡◌, ◌<◌, ◌^◌, ◌⊎◌, Ok, Err, IfOk, IfErr, length, option_map};
ghost use Rattle.policy_meaning.specs.Typed.{IsActionOf};
ghost use Rattle.policy_rules.specs.Shapes.{field_value_types, shapes_of};
ghost use Rattle.policy_rules.specs.WellTyped.{IsWellTyped, items_of};
ghost use Rattle.transaction.specs.Acting.{action_at, action_named, resolved_all, start_of};
ghost use Rattle.transaction.specs.declared.fault.ActFault.TheVariants as fault;

use crate::ActFault;
use crate::items::{item_at, number_named, value_type};
use base_bytes::{Arg, NoMemory, Shapes, Values};
use policy_ast::{Field, Item, Policy};
use policy_heads::Heads;
use policy_meaning::{resolve_by_shapes, shapes};
use policy_types::laws::resolved_arguments_are_typed;
use sqlite_items::Items;
use std::alloc::Global;

/// An action by its item number, and its parameters.
#[derive(Clone, Copy)]
pub struct Action<'a> {
    pub number: u32,
    pub parameters: &'a [Field],
}

/// The action of this item number, if it is one.
fn action_at(policy: &Policy, number: u32) -> Option<Action<'_>>
    ensures { option_map (λ action. record { number = action.number; parameters = action.parameters.now }) result ≡ action_at (items_of policy.now) number }
{
    match item_at(policy, number)? {
        Item::Action { parameters, .. } => Some(Action {
            number,
            parameters: parameters.as_slice(),
        }),
        _ => None,
    }
}

/// The action that a name means, if it means one.
fn action_named<'a>(policy: &'a Policy, name: &[u8]) -> Option<Action<'a>>
    ensures action { option_map (λ action. record { number = action.number; parameters = action.parameters.now }) result ≡ action_named (items_of policy.now) name.now }
    ensures few { length policy.now < 2 ^ 32 }
{
    let number = number_named(policy.items(), name)?;
    action_at(policy, number as u32)
}

/// The values of the arguments at the types of the parameters, one for each, where each argument is one.
fn resolved_all(
    alloc: Global,
    policy: &Policy,
    heads: &Heads,
    shapes: &Shapes,
    parameters: &[Field],
    args: &[Arg],
) -> Result<Option<Values>, NoMemory>
    requires well_typed { IsWellTyped policy.now }
    requires few { length heads.now < 2 ^ 32 }
    requires heads { heads.now ≡ items_of policy.now }
    requires shapes { shapes.now ≡ shapes_of (items_of policy.now) }
    ensures { IfOk result (λ values. values ≡ resolved_all (items_of policy.now) (field_value_types (items_of policy.now) parameters.now) args.now) }
{
    if parameters.len() != args.len() {
        return Ok(None);
    }
    let mut values = Items::new(alloc);
    for i in 0..args.len() {
        let ty = value_type(alloc, heads, &parameters[i].field_type)?;
        match resolve_by_shapes(alloc, policy, shapes, &ty, &args[i])? {
            Some(value) => values.push(value)?,
            None => return Ok(None),
        }
    }
    Ok(Some(values))
}

/// The same, with what the policy's items are looked up by.
fn arguments(
    alloc: Global,
    policy: &Policy,
    parameters: &[Field],
    args: &[Arg],
) -> Result<Option<Values>, NoMemory>
    requires well_typed { IsWellTyped policy.now }
    requires few { length policy.now < 2 ^ 32 }
    ensures { IfOk result (λ values. values ≡ resolved_all (items_of policy.now) (field_value_types (items_of policy.now) parameters.now) args.now) }
{
    let heads = Heads::new(alloc, policy)?;
    let shapes = shapes(alloc, policy)?;
    resolved_all(alloc, policy, &heads, &shapes, parameters, args)
}

/// An action by its item number, and the values of its arguments.
#[derive(Drop)]
pub struct Start {
    pub action: u32,
    pub arguments: Values,
}

/// The action of this name with these arguments.
pub fn start_of(
    alloc: Global,
    policy: &Policy,
    action: &[u8],
    args: &[Arg],
) -> Result<Start, ActFault>
    requires well_typed { IsWellTyped policy.now }
    ensures ok { IfOk result (λ start. start_of (items_of policy.now) args.now (action_named (items_of policy.now) action.now) ≡ Ok (record { action = start.action; arguments = start.arguments })) }
    ensures err { IfErr result (λ why. (why ≡ fault.NoMemory) ⊎ (start_of (items_of policy.now) args.now (action_named (items_of policy.now) action.now) ≡ Err why)) }
    ensures declared { IfOk result (λ start. IsActionOf policy.now start.action start.arguments) }
{
    resolved_arguments_are_typed();
    let Some(found) = action_named(policy, action) else {
        return Err(ActFault::UnknownAction);
    };
    match arguments(alloc, policy, found.parameters, args)? {
        Some(arguments) => Ok(Start {
            action: found.number,
            arguments,
        }),
        None => Err(ActFault::Arguments),
    }
}
