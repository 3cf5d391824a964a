//! The value that an argument of a script writes, at a type.

ghost use Rattle.std.specs.Prelude.{◌≡◌, IfOk};
ghost use Rattle.policy_meaning.specs.Resolving.{resolved};
ghost use Rattle.policy_meaning.specs.working.Resolutions.{given_of, names_at, resolving, values_for};
ghost use Rattle.policy_rules.specs.Shapes.{shapes_of};
ghost use Rattle.policy_rules.specs.WellTyped.{IsWellTyped, items_of};

use crate::given::{place_of_field, types_for};
use crate::plain::{
    bool_at, bytes_at, id_at, inner_type, int_at, nothing_at, some_of, struct_number, struct_of,
    text_at, variant_at,
};
use crate::shaping::shapes;
use base_bytes::{Arg, NoMemory, Shapes, Text, Ty, Value, Values};
use policy_ast::Policy;
use sqlite_items::Items;
use std::alloc::Global;

/// The value that an argument writes at a type of a well-typed policy, and None exactly where it is no value of that type. The shapes of the whole
/// policy are made for it, so who has several arguments makes them once and calls `resolve_by_shapes`.
pub fn resolve(
    alloc: Global,
    policy: &Policy,
    ty: &Ty,
    arg: &Arg,
) -> Result<Option<Value>, NoMemory>
    requires well_typed { IsWellTyped policy.now }
    ensures { IfOk result (λ found. found ≡ resolved (items_of policy.now) arg.now ty.now) }
{
    let shapes = shapes(alloc, policy)?;
    resolve_by_shapes(alloc, policy, &shapes, ty, arg)
}

/// The same by the shapes of the policy. A name is only held against that of the item whose number the type has, so the time goes with what is written,
/// and not with the size of the policy.
#[tactic(auto, unfolding(crate::specs::working::Resolutions::resolving))]
pub fn resolve_by_shapes(
    alloc: Global,
    policy: &Policy,
    shapes: &Shapes,
    ty: &Ty,
    arg: &Arg,
) -> Result<Option<Value>, NoMemory>
    requires well_typed { IsWellTyped policy.now }
    requires shapes { shapes.now ≡ shapes_of (items_of policy.now) }
    ensures { IfOk result (λ found. found ≡ resolved (items_of policy.now) arg.now ty.now) }
{
    value_of(alloc, arg, ty, policy, shapes)
}

#[cycle(resolve)]
fn value_of(
    alloc: Global,
    arg: &Arg,
    ty: &Ty,
    policy: &Policy,
    shapes: &Shapes,
) -> Result<Option<Value>, NoMemory>
    requires well_typed { IsWellTyped policy.now }
    requires shapes { shapes.now ≡ shapes_of (items_of policy.now) }
    ensures { IfOk result (λ found. found ≡ resolving (items_of policy.now) arg.now ty.now) }
{
    match arg {
        Arg::Int(number) => {
            let number = *number;
            Ok(int_at(ty, number))
        }
        Arg::Bool(truth) => Ok(bool_at(ty, *truth)),
        Arg::Str(text) => text_at(alloc, ty, text),
        Arg::Raw(bytes) => bytes_at(alloc, ty, bytes),
        Arg::Ident(id) => Ok(id_at(ty, *id)),
        Arg::Variant(name, variant) => Ok(variant_at(policy, ty, name, variant)),
        Arg::Fields(name, given) => match struct_number(ty) {
            Some(number) => match types_for(policy, shapes, number, name, given.as_slice()) {
                Some(types) => struct_of(
                    number,
                    fields_of(alloc, given.as_slice(), types, number, policy, shapes),
                ),
                None => Ok(None),
            },
            None => Ok(None),
        },
        Arg::Nothing => Ok(nothing_at(ty)),
        Arg::Some(inner) => match inner_type(ty) {
            Some(t) => some_of(alloc, value_of(alloc, inner.get(), t, policy, shapes)),
            None => Ok(None),
        },
    }
}

/// The values of the fields of these types, of the item of this number.
#[cycle(resolve)]
fn fields_of(
    alloc: Global,
    given: &[(Text, Arg)],
    types: &[Ty],
    number: u32,
    policy: &Policy,
    shapes: &Shapes,
) -> Result<Option<Values>, NoMemory>
    requires well_typed { IsWellTyped policy.now }
    requires shapes { shapes.now ≡ shapes_of (items_of policy.now) }
    ensures { IfOk result (λ values. values ≡ values_for (names_at (items_of policy.now) number) types.now (given_of (items_of policy.now) given.now)) }
{
    let mut values = Items::new(alloc);
    for i in 0..types.len() {
        let ty = &types[i];
        match place_of_field(policy, number, i, given) {
            Some(at) => match value_of(alloc, &given[at].1, ty, policy, shapes)? {
                Some(value) => values.push(value)?,
                None => return Ok(None),
            },
            None => return Ok(None),
        }
    }
    Ok(Some(values))
}
