ghost use Rattle.std.specs.Prelude.{◌≡◌, true, IfOk, IsTrue};
ghost use Rattle.base_bytes.specs.Payload.{is_short, spelling};
ghost use Rattle.base_bytes.specs.Words.{is_word};
ghost use Rattle.base_bytes.specs.declared.value.Value.TheVariants as value;
ghost use Rattle.command_kinds.specs.Kinds.{kind_seen};
ghost use Rattle.policy_meaning.specs.Typed.{IsCommandOf};
ghost use Rattle.policy_rules.specs.WellTyped.{IsWellTyped};
ghost use Rattle.transaction.specs.Publishing.{declared_at};

use crate::items::item_at;
use base_bytes::{Bytes, NoMemory, Text, Value, Values, copy_values, encode_value};
use command_kinds::{Kind, command_kind};
use policy_ast::{Item, Name, Policy};
use std::alloc::Global;

/// A command as its policy declares it.
#[derive(Drop)]
pub struct Declared<'a> {
    pub name: &'a Name,
    pub kind: Kind,
}

/// The command of this number, which is one by the policy.
#[tactic(auto, using(crate::proofs::CommandFacts::kind_given, crate::proofs::CommandFacts::declared_given, crate::proofs::CommandFacts::none_given, crate::proofs::CommandFacts::other_given))]
pub fn declared_command<'a>(policy: &'a Policy, number: u32, fields: &Values) -> Declared<'a>
    requires well_typed { IsWellTyped policy.now }
    requires declared { IsCommandOf policy.now number fields.now }
    ensures { declared_at policy.now number ≡ record { name = result.name.now; kind = kind_seen result.kind } }
{
    let Some(item) = item_at(policy, number) else {
        unreachable!()
    };
    match item {
        Item::Command(name, sections) => Declared {
            name,
            kind: command_kind(sections.as_slice()),
        },
        _ => unreachable!(),
    }
}

/// The text of a name, which is a word.
pub fn text_of(alloc: Global, name: &Name) -> Result<Text, NoMemory>
    ensures text { IfOk result (λ text. text ≡ name.now) }
    ensures word { IfOk result (λ text. IsTrue (is_word text)) }
{
    Text::from_slice(alloc, name.as_str())
}

/// The payload of a command of these fields.
pub fn payload_of(alloc: Global, number: u32, fields: &Values) -> Result<Bytes, NoMemory>
    requires { is_short (value.Struct number fields.now) ≡ true }
    ensures { IfOk result (λ payload. payload ≡ spelling (value.Struct number fields.now)) }
{
    let value = Value::Struct(number, copy_values(alloc, fields.as_slice())?);
    let mut payload = Bytes::new(alloc);
    encode_value(alloc, &value, &mut payload)?;
    Ok(payload)
}
