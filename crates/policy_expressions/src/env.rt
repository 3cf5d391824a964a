//! The names for values that are in scope.

ghost use Rattle.std.specs.Prelude.{◌≡◌, [], length, take, IfOk, OnOk};
ghost use Rattle.std.specs.Option.{option_copied};
ghost use Rattle.policy_meaning.specs.Environments.{bound_parameters, value_in, with_value};
ghost use Rattle.policy_rules.specs.Types.{declared};
ghost use Rattle.policy_expressions.specs.Answers.{Keeps};

use base_bytes::{NoMemory, Value, Values};
use policy_ast::{Field, Name};
use std::alloc::Global;
use std::marker::Model;

/// A name and its value.
#[derive(Drop)]
struct Binding<'a> {
    name: &'a Name,
    value: Value,
}

/// Names with their values, in the order in which they were introduced. The names stay in the trees. Contracts see the list of names and values.
#[derive(Drop)]
pub struct Env<'a> {
    bindings: Vec<Binding<'a>>,
}

impl<'a> Model for Env<'a> {
    ghost use Rattle.std.specs.Prelude.{List};
    ghost use Rattle.std.specs.Coded.{codes};
    ghost use Rattle.base_bytes.specs.contracts.value.Value as value_contract;
    ghost use Rattle.policy_meaning.specs.Environments.{Bound};
    ghost use Rattle.policy_expressions.specs.Views.{env_of};

    ghost Value = { List Bound };

    ghost coded = { Prim.hlevel (codes, value_contract.the_row.coded) };

    ghost view = { λ env. env_of env.bindings.items };
}

impl<'a> Env<'a> {
    /// No names. Takes no memory.
    pub fn new(alloc: Global) -> Env<'a>
        ensures { result ≡ [] }
    {
        Env {
            bindings: Vec::new(alloc),
        }
    }

    /// Parameters with the values of arguments.
    pub fn of_parameters(
        alloc: Global,
        parameters: &'a [Field],
        mut values: Values,
    ) -> Result<Env<'a>, NoMemory>
        ensures { IfOk result (λ env. env ≡ bound_parameters (declared parameters.now) values) }
    {
        let mut env = Env::new(alloc);
        for parameter in parameters {
            if values.is_empty() {
                return Ok(env);
            }
            env.push(&parameter.name, values.remove(0))?;
        }
        Ok(env)
    }

    pub fn len(&self) -> usize
        ensures { result ≡ length self.now }
    {
        self.bindings.len()
    }

    /// The value of the name: the first that was introduced with it.
    pub fn value_in(&self, name: &Name) -> Option<&Value>
        ensures { option_copied result ≡ value_in self.now name.now }
    {
        for binding in self.bindings.as_slice() {
            if *name == *binding.name {
                return Some(&binding.value);
            }
        }
        None
    }

    /// Introduces a name behind the others. Where memory is wanting, the names that were there are still the first.
    pub fn push(&mut self, name: &'a Name, value: Value) -> Result<(), NoMemory>
        ensures added { OnOk result (self.new ≡ with_value self.old name.now value) }
        ensures kept { Keeps self.old self.new }
    {
        self.bindings.push(Binding { name, value })?;
        Ok(())
    }

    /// Forgets the names behind the first `len`.
    pub fn truncate(&mut self, len: usize)
        ensures { self.new ≡ take len self.old }
    {
        self.bindings.truncate(len);
    }
}
