ghost use Rattle.std.specs.Prelude.{◌≡◌, ◌≤◌, [], ◌∷◌, ◌++◌, if◌then◌else◌, IsTrue, OnErr, OnOk};
ghost use Rattle.fact_store.specs.Rows.{are_keys};
ghost use Rattle.policy_meaning.specs.Finish.{Create, Delete, Emit, Update};
ghost use Rattle.policy_expressions.specs.Applying.{is_write};
ghost use Rattle.policy_expressions.specs.Changes.{HasKeys, meant};

use base_bytes::{NoMemory, Values};
use fact_store::{Row, Wanted};
use policy_meaning::Effect;
use std::alloc::Global;
use std::marker::Model;

/// A write or an effect.
#[derive(Drop)]
pub(crate) enum Listed {
    Create(Row),
    Update(Wanted, Values),
    Delete(u32, Values),
    Emit(Effect),
}

/// A write or an effect that `finish` lists, whose keys may be keys. Contracts see it as the definitions do.
#[derive(Drop)]
pub struct Change {
    listed: Listed,
}

impl Model for Change {
    ghost use Rattle.std.specs.Coded.{codes};
    ghost use Rattle.base_bytes.specs.contracts.value.Value as value_contract;
    ghost use Rattle.policy_meaning.specs.Finish.{Change as Meant};
    ghost use Rattle.policy_expressions.specs.Changes.{HasKeys, meant};

    ghost Value = { Meant };

    ghost coded = { Prim.hlevel (codes, value_contract.the_row.coded) };

    ghost view = { λ c. meant c.listed };

    ghost invariant = { λ c. HasKeys c.listed };
}

impl Change {
    pub(crate) fn create(row: Row) -> Change
        requires keys { IsTrue (are_keys row.keys) }
        ensures { result ≡ Create row }
    {
        Change {
            listed: Listed::Create(row),
        }
    }

    pub(crate) fn update(old: Wanted, values: Values) -> Change
        requires keys { IsTrue (are_keys old.keys) }
        ensures { result ≡ Update old values }
    {
        Change {
            listed: Listed::Update(old, values),
        }
    }

    pub(crate) fn delete(fact: u32, keys: Values) -> Change
        requires keys { IsTrue (are_keys keys) }
        ensures { result ≡ Delete fact keys }
    {
        Change {
            listed: Listed::Delete(fact, keys),
        }
    }

    pub(crate) fn emit(effect: Effect) -> Change
        ensures { result ≡ Emit effect }
    {
        Change {
            listed: Listed::Emit(effect),
        }
    }

    /// 1 where it is a write.
    pub(crate) fn writes(&self) -> usize
        ensures count { result ≡ (if is_write self.now then 1 else 0) }
        ensures few { result ≤ 1 }
    {
        match &self.listed {
            Listed::Create(_) => 1,
            Listed::Update(_, _) => 1,
            Listed::Delete(_, _) => 1,
            Listed::Emit(_) => 0,
        }
    }

    pub(crate) fn into_listed(self) -> Listed
        ensures change { meant result ≡ self }
        ensures keys { HasKeys result }
    {
        let Change { listed } = self;
        listed
    }
}

/// Writes and effects in order, which contracts see as their list.
#[derive(Drop)]
pub struct Changes {
    changes: Vec<Change>,
}

impl Model for Changes {
    ghost use Rattle.std.specs.Prelude.{List};
    ghost use Rattle.std.specs.Coded.{codes};
    ghost use Rattle.base_bytes.specs.contracts.value.Value as value_contract;
    ghost use Rattle.policy_meaning.specs.Finish.{Change as Meant};

    ghost Value = { List Meant };

    ghost coded = { Prim.hlevel (codes, value_contract.the_row.coded) };

    ghost view = { λ c. c.changes.items };
}

impl Changes {
    /// No changes. Takes no memory.
    pub fn new(alloc: Global) -> Changes
        ensures { result ≡ [] }
    {
        Changes {
            changes: Vec::new(alloc),
        }
    }

    /// Adds one change at the end; without memory the changes stay as they were.
    pub fn push(&mut self, change: Change) -> Result<(), NoMemory>
        ensures ok { OnOk result (self.new ≡ self.old ++ change ∷ []) }
        ensures err { OnErr result (self.new ≡ self.old) }
    {
        self.changes.push(change)?;
        Ok(())
    }

    pub(crate) fn as_slice(&self) -> &[Change]
        ensures { result.now ≡ self.now }
    {
        self.changes.as_slice()
    }

    pub(crate) fn into_vec(self) -> Vec<Change>
        ensures { result.items ≡ self }
    {
        let Changes { changes } = self;
        changes
    }
}
