ghost use Rattle.std.specs.Prelude.{◌≡◌, ℕ};
ghost use Rattle.policy_meaning.specs.Actions.{action_setting};
ghost use Rattle.policy_meaning.specs.Blocks.{command_setting};
ghost use Rattle.policy_meaning.specs.Environments.{no_setting};
ghost use Rattle.policy_meaning.specs.Outcomes.{or_stuck};
ghost use Rattle.policy_expressions.specs.Answers.{Gives};

use crate::stop::{Answer, Stop};
use base_bytes::{Id, Value, copy_values};
use policy_meaning::Call;
use std::alloc::Global;
use std::marker::Model;

/// The command that `this` means: its item number and its fields.
#[derive(Clone, Copy)]
struct This<'a> {
    command: u32,
    fields: &'a [Value],
}

/// What a block knows beside its names: the command with its author and its id, or the device. Contracts see their values.
#[derive(Drop)]
pub struct Setting<'a> {
    this: Option<This<'a>>,
    author: Option<&'a Id>,
    command_id: Option<&'a Id>,
    device: Option<&'a Id>,
}

impl<'a> Model for Setting<'a> {
    ghost use Rattle.std.specs.Prelude.{option_map};
    ghost use Rattle.std.specs.Option.{option_copied};
    ghost use Rattle.std.specs.Coded.{codes};
    ghost use Rattle.base_bytes.specs.contracts.value.Value as value_contract;
    ghost use Rattle.policy_meaning.specs.Environments.{Setting as Known};
    ghost use Rattle.policy_expressions.specs.Views.{this_value};

    ghost Value = { Known };

    ghost coded = { Prim.hlevel (codes, value_contract.the_row.coded) };

    ghost view = { λ s. record { this = option_map this_value s.this; author = option_copied s.author; command_id = option_copied s.command_id; device = option_copied s.device } };
}

impl<'a> Setting<'a> {
    /// Nothing, as in functions and finish functions.
    pub fn none() -> Setting<'a>
        ensures { result ≡ no_setting }
    {
        Setting {
            this: None,
            author: None,
            command_id: None,
            device: None,
        }
    }

    /// What the blocks of a command know.
    pub fn of_command(call: &'a Call) -> Setting<'a>
        ensures { result ≡ command_setting call.now }
    {
        Setting {
            this: Some(This {
                command: call.command,
                fields: call.fields.as_slice(),
            }),
            author: Some(&call.author),
            command_id: Some(&call.id),
            device: None,
        }
    }

    /// What actions know.
    pub fn of_action(device: &'a Id) -> Setting<'a>
        ensures { result ≡ action_setting device.now }
    {
        Setting {
            this: None,
            author: None,
            command_id: None,
            device: Some(device),
        }
    }

    /// A copy of the command, where there is one.
    pub(crate) fn this(&self, alloc: Global) -> Answer<Value>
        ensures { (turns : ℕ) → Gives result turns (or_stuck self.now.this turns) }
    {
        match self.this {
            Some(this) => Ok(Value::Struct(this.command, copy_values(alloc, this.fields)?)),
            None => Err(Stop::Stuck),
        }
    }

    pub(crate) fn author(&self) -> Option<Id>
        ensures { result ≡ self.now.author }
    {
        self.author.copied()
    }

    pub(crate) fn command_id(&self) -> Option<Id>
        ensures { result ≡ self.now.command_id }
    {
        self.command_id.copied()
    }

    pub(crate) fn device(&self) -> Option<Id>
        ensures { result ≡ self.now.device }
    {
        self.device.copied()
    }
}
