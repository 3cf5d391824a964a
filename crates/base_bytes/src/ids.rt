ghost use Rattle.std.specs.Prelude.{◌≡◌, [], ◌∷◌, ◌++◌, length, IfOk, OnOk, OnErr};

use crate::{Id, NoMemory};
use std::alloc::Global;
use std::marker::Model;

/// A list of ids, which contracts see as the list.
#[derive(Debug, Drop)]
pub struct Ids {
    ids: Vec<Id>,
}

impl Model for Ids {
    ghost use Rattle.std.specs.Prelude.{List, ℕ};

    ghost Value = { List (List ℕ) };

    ghost view = { λ it. it.ids.items };
}

impl Ids {
    /// No ids. Takes no memory.
    pub fn new(alloc: Global) -> Ids
        ensures { result ≡ [] }
    {
        Ids {
            ids: Vec::new(alloc),
        }
    }

    /// A copy of the slice.
    pub fn from_slice(alloc: Global, ids: &[Id]) -> Result<Ids, NoMemory>
        ensures { IfOk result (λ it. it ≡ ids.now) }
    {
        let ids = Vec::from_slice(alloc, ids)?;
        Ok(Ids { ids })
    }

    pub fn as_slice(&self) -> &[Id]
        ensures { result.now ≡ self.now }
    {
        self.ids.as_slice()
    }

    /// The vector of the ids, as it is. Takes no memory.
    pub fn into_vec(self) -> Vec<Id>
        ensures { result.items ≡ self }
    {
        self.ids
    }

    pub fn len(&self) -> usize
        ensures { result ≡ length self.now }
    {
        self.ids.len()
    }

    pub fn copy(&self, alloc: Global) -> Result<Ids, NoMemory>
        ensures { IfOk result (λ it. it ≡ self.now) }
    {
        Ids::from_slice(alloc, self.as_slice())
    }

    /// Adds one id at the end; without memory the ids stay as they were.
    pub fn push(&mut self, _alloc: Global, id: Id) -> Result<(), NoMemory>
        ensures ok { OnOk result (self.new ≡ self.old ++ id ∷ []) }
        ensures err { OnErr result (self.new ≡ self.old) }
    {
        self.ids.push(id)?;
        Ok(())
    }
}
