//! The bodies of actions.

ghost use Rattle.std.specs.Prelude.{◌≡◌, Err, IfOk, OnOk, Some, option_map, slice_get};
ghost use Rattle.std.specs.Option.{option_copied};
ghost use Rattle.policy_meaning.specs.Blocks.{most_turns};
ghost use Rattle.policy_meaning.specs.Desks.{ActionRun};
ghost use Rattle.policy_meaning.specs.Typed.{AreTyped, IsActionOf};
ghost use Rattle.policy_rules.specs.WellTyped.{items_of};
ghost use Rattle.policy_expressions.specs.declared.stop.Stop.TheVariants as stop;
ghost use Rattle.policy_eval.specs.declared.cause.Cause.TheVariants as cause;
ghost use Rattle.policy_eval.specs.working.Acting.{ActsAtLast, GoesWell, ended_by};
ghost use Rattle.policy_eval.specs.working.Deeds.{action_parts, action_parts_of, body_whole, kept_action};

use crate::acting::act_block;
use crate::cause::Cause;
use crate::ids::is_id;
use crate::limits::TURNS;
use base_bytes::{Id, NoMemory, Steps, Values, copy_values};
use fact_store::FactBase;
use policy_ast::{Field, Item, PlacedItem, Stmt};
use policy_expressions::{Env, Known, Setting, Stop};
use policy_meaning::{ActionEnd, Desk};
use policy_types::Checked;
use policy_types::laws::actions_are_never_stuck;
use sqlite_items::at;
use std::alloc::Global;
use std::sync::ledger::Ledger;

/// The parameters and the body of an action.
#[derive(Clone, Copy)]
struct ActionBody<'a> {
    parameters: &'a [Field],
    body: &'a [Stmt],
}

/// The item as an action.
fn action_parts_of<'a>(item: &'a Item) -> Option<ActionBody<'a>>
    ensures { option_map kept_action result ≡ action_parts_of item.now }
{
    match item {
        Item::Action {
            parameters,
            body,
            ..
        } => Some(ActionBody {
            parameters: parameters.as_slice(),
            body: body.as_slice(),
        }),
        _ => None,
    }
}

/// The item of this number.
fn item_at(items: &[PlacedItem], number: u32) -> Option<&Item>
    ensures { option_copied result ≡ slice_get (items_of items.now) number }
{
    match at(items, number as usize) {
        Some(placed) => Some(&placed.item),
        None => None,
    }
}

/// The action of this number.
fn action_parts<'a>(items: &'a [PlacedItem], number: u32) -> Option<ActionBody<'a>>
    ensures { option_map kept_action result ≡ action_parts (items_of items.now) number }
{
    match item_at(items, number) {
        Some(item) => action_parts_of(item),
        None => None,
    }
}

/// Runs the body of an action over the facts.
fn act_body<'a, F: FactBase, P: Desk<F>, L: Ledger>(
    alloc: Global,
    known: &Known<'a>,
    device: &Id,
    facts: &mut F,
    desk: &mut P,
    steps: &mut Steps<L>,
    parameters: &'a [Field],
    body: &'a [Stmt],
    values: Values,
) -> Result<(), Cause>
    requires policy { items_of (P.policy desk.old) ≡ known.now }
    requires typed { AreTyped (P.policy desk.old) (F.rows facts.old) }
    requires goes { GoesWell (P.policy desk.old) (body_whole known.now device.now values (parameters.now, body.now)) (F.rows facts.old) most_turns }
    ensures acts { ActsAtLast P.publishes (P.policy desk.old) result (body_whole known.now device.now values (parameters.now, body.now)) desk.old (F.rows facts.old) most_turns steps.old desk.new (F.rows facts.new) steps.new }
    ensures keeps { P.keeps desk.old desk.new }
    ensures policy { P.policy desk.new ≡ P.policy desk.old }
{
    let mut env = Env::of_parameters(alloc, parameters, values)?;
    let setting = Setting::of_action(device);
    let mut turns = TURNS;
    act_block(
        alloc, known, &setting, facts, desk, steps, &mut env, &mut turns, body,
    )
}

/// How an action ended, which wasn't stuck.
fn end_of(done: Result<(), Cause>) -> Result<ActionEnd, NoMemory>
    requires never { done ≡ Err (cause.Stop stop.Stuck) → ⊥ }
    ensures { IfOk result (λ end. ended_by done ≡ Some end) }
{
    match done {
        Ok(()) => Ok(ActionEnd::Done),
        Err(Cause::Refused) => Ok(ActionEnd::Stopped),
        Err(Cause::Stop(Stop::Check)) => Ok(ActionEnd::Check),
        Err(Cause::Stop(Stop::Fault(kind))) => Ok(ActionEnd::Fault(kind)),
        Err(Cause::Stop(Stop::Stuck)) => unreachable!(),
        Err(Cause::Stop(Stop::NoMemory)) => Err(NoMemory),
    }
}

/// Runs an action of the policy, and tells how it ends.
pub(crate) fn action_end<F: FactBase, P: Desk<F>, L: Ledger>(
    alloc: Global,
    checked: &Checked,
    action: u32,
    args: &Values,
    device: &Id,
    facts: &mut F,
    desk: &mut P,
    steps: &mut Steps<L>,
) -> Result<ActionEnd, NoMemory>
    requires declared { IsActionOf checked.now action args.now }
    requires policy { P.policy desk.old ≡ checked.now }
    requires typed { AreTyped checked.now (F.rows facts.old) }
    ensures runs { IfOk result (λ end. ActionRun P.publishes checked.now action args.now device.now desk.old (F.rows facts.old) end steps.old steps.new desk.new (F.rows facts.new)) }
    ensures keeps { P.keeps desk.old desk.new }
    ensures policy { P.policy desk.new ≡ checked.now }
    ensures typed { OnOk result (AreTyped checked.now (F.rows facts.new)) }
{
    let policy = checked.policy();
    actions_are_never_stuck();
    is_id(device);
    let Some(parts) = action_parts(policy.items(), action) else {
        unreachable!();
    };
    let known = Known::new(alloc, checked)?;
    let values = copy_values(alloc, args.as_slice())?;
    let (parameters, body) = (parts.parameters, parts.body);
    let done = act_body(
        alloc, &known, device, facts, desk, steps, parameters, body, values,
    );
    end_of(done)
}
