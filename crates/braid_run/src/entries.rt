ghost use Rattle.std.specs.Prelude.{◌≡◌, ◌+◌, ◌<◌, ◌≤◌, [], ◌∷◌, ◌++◌, length, take, IsOk, IfOk, OnOk, OnErr};

use crate::Entry;
use base_bytes::NoMemory;
use std::alloc::Global;
use std::marker::Model;

/// A list of entries. Contracts see the list and the room behind it: how many more entries can be added without memory.
#[derive(Drop)]
pub struct Entries {
    entries: Vec<Entry>,
}

impl Model for Entries {
    ghost use Rattle.std.specs.Prelude.{◌-◌, length, vec_capacity};
    ghost use Rattle.std.specs.Coded.{codes};
    ghost use Rattle.braid_run.specs.EntryLists.{EntryList};
    ghost use Rattle.base_bytes.specs.contracts.value.Value as value;

    ghost Value = { EntryList };

    ghost coded = { Prim.hlevel (codes, value.the_row.coded) };

    ghost view = { λ it. record { all = it.entries.items; room = vec_capacity it.entries - length it.entries.items } };
}

impl Entries {
    /// No entries. Takes no memory.
    pub fn new(alloc: Global) -> Entries
        ensures { result.all ≡ [] }
    {
        Entries {
            entries: Vec::new(alloc),
        }
    }

    /// Copies of the entries.
    pub fn from_slice(alloc: Global, entries: &[Entry]) -> Result<Entries, NoMemory>
        ensures { IfOk result (λ it. it.all ≡ entries.now) }
    {
        let mut all = Entries::new(alloc);
        for entry in entries {
            all.push(alloc, entry.copy(alloc)?)?;
        }
        Ok(all)
    }

    pub fn as_slice(&self) -> &[Entry]
        ensures { result.now ≡ self.now.all }
    {
        self.entries.as_slice()
    }

    /// The vector of the entries, as it is. Takes no memory.
    pub fn into_vec(self) -> Vec<Entry>
        ensures { result.items ≡ self.all }
    {
        self.entries
    }

    pub fn len(&self) -> usize
        ensures { result ≡ length self.now.all }
    {
        self.entries.len()
    }

    pub fn copy(&self, alloc: Global) -> Result<Entries, NoMemory>
        ensures { IfOk result (λ other. other.all ≡ self.now.all) }
    {
        Entries::from_slice(alloc, self.as_slice())
    }

    /// Adds one entry at the end. Where there is room this takes no memory, and at most the room of one entry is taken; without memory the entries stay
    /// as they were, and no room is lost.
    pub fn push(&mut self, _alloc: Global, entry: Entry) -> Result<(), NoMemory>
        ensures ok { OnOk result (self.new.all ≡ self.old.all ++ entry ∷ []) }
        ensures err { OnErr result (self.new.all ≡ self.old.all) }
        ensures succeeds { 0 < self.old.room → IsOk result }
        ensures room { self.old.room ≤ self.new.room + 1 }
        ensures kept { OnErr result (self.old.room ≤ self.new.room) }
    {
        self.entries.push(entry)?;
        Ok(())
    }

    /// Makes room for so many more entries, and takes no memory where it is there. Without memory the entries stay as they were, and no room is lost.
    pub fn reserve(&mut self, _alloc: Global, more: usize) -> Result<(), NoMemory>
        ensures ok { OnOk result (more ≤ self.new.room) }
        ensures succeeds { more ≤ self.old.room → IsOk result }
        ensures entries { self.new.all ≡ self.old.all }
        ensures kept { self.old.room ≤ self.new.room }
    {
        self.entries.reserve(more)?;
        Ok(())
    }

    /// Keeps the first `len` entries, or all where there are no more. Takes no memory, and no room is lost.
    pub fn truncate(&mut self, len: usize)
        ensures entries { self.new.all ≡ take len self.old.all }
        ensures kept { self.old.room ≤ self.new.room }
    {
        self.entries.truncate(len);
    }

    /// Adds these entries at the end, for which there is room. Takes no memory.
    pub fn append(&mut self, more: Entries)
        requires room { length more.all ≤ self.old.room }
        ensures entries { self.new.all ≡ self.old.all ++ more.all }
        ensures kept { self.old.room ≤ self.new.room + length more.all }
    {
        let mut more = more.into_vec();
        match self.entries.append(&mut more) {
            Ok(()) => {}
            Err(_) => unreachable!(),
        }
    }
}
