ghost use Rattle.std.specs.Prelude.{◌≡◌, ◌<◌, ◌⊎◌, ◌++◌, ◌∷◌, [], true, false, get_or, length, IfOk, OnOk, MatchOption};
ghost use Rattle.graph_set.specs.working.Walks.{IsBegun, MarksWhere};

use base_bytes::NoMemory;
use std::alloc::Global;

// This stands in graph_set too, to be exported there.

/// What a walk back from one command has found. Commands are numbered from the oldest one that is of interest: each is marked
/// when it is found, and then looked at once.
#[derive(Drop)]
pub struct Walk {
    marks: Vec<bool>,
    due: Vec<usize>,
}

impl Walk {
    /// Only the command with the last number is found.
    pub fn begin(alloc: Global, last: usize) -> Result<Walk, NoMemory>
        requires { last < 65536 }
        ensures { IfOk result (λ walk. IsBegun last walk.marks.items walk.due.items) }
    {
        let mut walk = Walk {
            marks: vec![in alloc; false; last + 1]?,
            due: Vec::new(alloc),
        };
        walk.add(last)?;
        Ok(walk)
    }

    /// Finds the command with this number, if it wasn't found before.
    pub fn add(&mut self, number: usize) -> Result<(), NoMemory>
        requires { number < length self.old.marks.items }
        ensures { OnOk result (MarksWhere (λ k. k ≡ number) self.old.marks.items self.old.due.items self.new.marks.items self.new.due.items) }
    {
        if self.marks[number] {
            return Ok(());
        }
        self.marks[number] = true;
        self.due.push(number)?;
        Ok(())
    }

    /// Whether the oldest one is found.
    pub fn is_ended(&self) -> bool
        requires { 0 < length self.now.marks.items }
        ensures { result ≡ get_or self.now.marks.items 0 false }
    {
        self.marks[0]
    }

    /// The next one to be looked at; None where the oldest is found, or none is due.
    pub fn next(&mut self) -> Option<usize>
        requires { 0 < length self.old.marks.items }
        ensures marks { self.new.marks.items ≡ self.old.marks.items }
        ensures next { MatchOption result ((get_or self.old.marks.items 0 false ≡ true) ⊎ (self.old.due.items ≡ [])) (λ number. self.old.due.items ≡ self.new.due.items ++ number ∷ []) }
    {
        if self.is_ended() {
            None
        } else {
            self.due.pop()
        }
    }
}
