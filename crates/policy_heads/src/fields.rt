//! Fields and parameters with their types.

ghost use Rattle.std.specs.Prelude.{◌≡◌, ◌++◌, map, IfOk, OnOk};
ghost use Rattle.policy_rules.specs.Heads.{command_fields};
ghost use Rattle.policy_rules.specs.Types.{declared, written_type};

use crate::types::written_type;
use base_bytes::NoMemory;
use policy_ast::{EffectField, Field, Section};
use policy_rules::Named;
use sqlite_items::Items;
use std::alloc::Global;

/// The field with its type.
fn named(alloc: Global, field: &Field) -> Result<Named, NoMemory>
    ensures { IfOk result (λ it. it ≡ record { name = field.now.name; ty = written_type field.now.field_type }) }
{
    let name = field.name.copy(alloc)?;
    let ty = written_type(alloc, &field.field_type)?;
    Ok(Named { name, ty })
}

/// Adds the fields with their types, in their order.
pub fn push_fields(alloc: Global, all: &mut Items<Named>, fields: &[Field]) -> Result<(), NoMemory>
    ensures { OnOk result (all.new ≡ all.old ++ declared fields.now) }
{
    for field in fields {
        all.push(named(alloc, field)?)?;
    }
    Ok(())
}

/// The same of an effect's fields.
pub fn push_effect_fields(
    alloc: Global,
    all: &mut Items<Named>,
    fields: &[EffectField],
) -> Result<(), NoMemory>
    ensures { OnOk result (all.new ≡ all.old ++ declared (map (λ f. f.field) fields.now)) }
{
    for field in fields {
        all.push(named(alloc, &field.field)?)?;
    }
    Ok(())
}

/// The fields of a command: those of its first section of fields.
pub fn command_fields(sections: &[Section]) -> &[Field]
    ensures { result.now ≡ command_fields sections.now }
{
    for section in sections {
        if let Section::Fields(fields) = section {
            return fields.as_slice();
        }
    }
    &[]
}
