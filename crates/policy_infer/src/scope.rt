//! The names for values that are in scope.

ghost use Rattle.std.specs.Prelude.{◌≡◌, [], length, take, None, OnOk};
ghost use Rattle.std.specs.Option.{option_copied};
ghost use Rattle.policy_rules.specs.Scopes.{type_in, with_name};
ghost use Rattle.policy_infer.specs.working.Answers.{Keeps};

use base_bytes::NoMemory;
use indexmap::IndexMap;
use policy_ast::Name;
use policy_rules::NamedType;
use std::alloc::Global;
use std::marker::Model;

/// Names with their types, in the order in which they were introduced. Contracts see it as their list.
#[derive(Drop)]
pub struct Scope {
    names: IndexMap<String, NamedType>,
}

impl Model for Scope {
    ghost use Rattle.std.specs.Prelude.{List};
    ghost use Rattle.std.specs.Coded.{coded_list};
    ghost use Rattle.policy_rules.specs.declared.types.Named.{Named};
    ghost use Rattle.policy_rules.specs.contracts.types.Named as named;
    ghost use Rattle.policy_infer.specs.working.ScopeViews.{scope_of};

    ghost Value = { List Named };

    ghost coded = { coded_list named.the_row.coded };

    ghost view = { λ scope. scope_of scope.names.entries };
}

impl Scope {
    /// No names. Takes no memory.
    pub fn new(alloc: Global) -> Scope
        ensures { result ≡ [] }
    {
        Scope {
            names: IndexMap::new(alloc),
        }
    }

    pub fn len(&self) -> usize
        ensures { result ≡ length self.now }
    {
        self.names.len()
    }

    /// The type with which the name was introduced.
    pub fn type_in(&self, name: &Name) -> Option<&NamedType>
        ensures { option_copied result ≡ type_in self.now name.now }
    {
        self.names.get(name.as_str())
    }

    /// Introduces a name that isn't there. Where memory is wanting, the names that were there are still the first.
    pub fn push(&mut self, alloc: Global, name: &Name, ty: NamedType) -> Result<(), NoMemory>
        requires { type_in self.old name.now ≡ None }
        ensures added { OnOk result (self.new ≡ with_name self.old name.now ty) }
        ensures kept { Keeps self.old self.new }
    {
        let name = String::from_str(alloc, name.as_str())?;
        self.names.insert(name, ty)?;
        Ok(())
    }

    /// Forgets the names behind the first `len`.
    pub fn truncate(&mut self, len: usize)
        ensures { self.new ≡ take len self.old }
    {
        self.names.truncate(len);
    }
}
