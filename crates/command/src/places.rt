ghost use Rattle.std.specs.Prelude.{◌≡◌, [], ◌∷◌, ◌++◌, length, reverse, IfOk, OnOk, OnErr};

use base_bytes::NoMemory;
use std::alloc::Global;
use std::marker::Model;

/// A list of places of commands in a graph, which contracts see as the list.
#[derive(Debug, Drop)]
pub struct Places {
    places: Vec<usize>,
}

impl Model for Places {
    ghost use Rattle.std.specs.Prelude.{List, ℕ};

    ghost Value = { List ℕ };

    ghost view = { λ it. it.places.items };
}

impl Places {
    /// No places. Takes no memory.
    pub fn new(alloc: Global) -> Places
        ensures { result ≡ [] }
    {
        Places {
            places: Vec::new(alloc),
        }
    }

    /// A copy of the slice.
    pub fn from_slice(alloc: Global, places: &[usize]) -> Result<Places, NoMemory>
        ensures { IfOk result (λ it. it ≡ places.now) }
    {
        let places = Vec::from_slice(alloc, places)?;
        Ok(Places { places })
    }

    pub fn as_slice(&self) -> &[usize]
        ensures { result.now ≡ self.now }
    {
        self.places.as_slice()
    }

    /// The vector of the places, as it is. Takes no memory.
    pub fn into_vec(self) -> Vec<usize>
        ensures { result.items ≡ self }
    {
        self.places
    }

    pub fn len(&self) -> usize
        ensures { result ≡ length self.now }
    {
        self.places.len()
    }

    pub fn copy(&self, alloc: Global) -> Result<Places, NoMemory>
        ensures { IfOk result (λ it. it ≡ self.now) }
    {
        Places::from_slice(alloc, self.as_slice())
    }

    /// Adds one place at the end; without memory the places stay as they were.
    pub fn push(&mut self, _alloc: Global, place: usize) -> Result<(), NoMemory>
        ensures ok { OnOk result (self.new ≡ self.old ++ place ∷ []) }
        ensures err { OnErr result (self.new ≡ self.old) }
    {
        self.places.push(place)?;
        Ok(())
    }

    /// Turns the list round.
    pub fn reverse(&mut self)
        ensures { self.new ≡ reverse self.old }
    {
        self.places.reverse();
    }
}
