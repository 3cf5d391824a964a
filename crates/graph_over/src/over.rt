ghost use Rattle.std.specs.Prelude.{◌≡◌, ◌≤◌, ◌<◌, ◌+◌, ◌↔◌, ℕ, IsTrue, List, [], ◌∷◌, ◌++◌, length, vec_capacity, IfOk, Some, OnOk, OnErr};
ghost use Rattle.std.specs.List.{Contains, list_any};
ghost use Rattle.std.specs.Str.{bytes_eq};
ghost use Rattle.command.specs.Ancestors.{Ancestor, IsAt, places_without};
ghost use Rattle.command.specs.Closed.{IsHeld, IsNext, max_commands, place_of};
ghost use Rattle.command.specs.Cuts.{cut_behind};
ghost use Rattle.command.specs.Kinds.{carried, parents_of};
ghost use Rattle.command.specs.Wire.{IsInForm, command_id};
ghost use Rattle.command.specs.declared.command.Command.{Command as TheCommand};
ghost use Rattle.graph_over.specs.working.Added.{IsOver, over_prop};
ghost use Rattle.graph_set.specs.working.Walks.{IsNumbered, MarksWhere};
ghost use Rattle.indexmap.specs.IndexSet.{spare};

use crate::heads::{parents_of_all, without_parents};
use crate::parents::add_head;
use crate::room::{gathered, note, store};
use crate::walk::Walk;
use base_bytes::{Id, NoMemory};
use command::{Command, Commands, Graph, Places, id_of};
use indexmap::IndexSet;
use std::alloc::Global;

/// A graph that borrows another one, which is only read, and owns the commands that are added behind it.
#[derive(Drop)]
pub struct Over<'a, G: Graph> {
    /// The graph below.
    pub base: &'a G,
    /// What is added behind its commands, in order.
    pub added: Vec<Command>,
    ids: IndexSet<Id>,
    room: usize,
    ghost graph: { IsOver (G.commands base.now) ids.keys added.items } by { over_prop (G.commands base.now) ids.keys added.items },
    ghost roomy: { room ≤ spare ids },
    ghost wide: { length added.items + room ≤ vec_capacity added },
}

impl<'a, G: Graph> Over<'a, G> {
    /// The graph, with nothing added yet. Takes no memory.
    pub fn on(alloc: Global, base: &'a G) -> Over<'a, G>
        ensures base { G.commands result.base.now ≡ G.commands base.now }
        ensures added { result.added.items ≡ [] }
    {
        Over {
            base,
            added: Vec::new(alloc),
            ids: IndexSet::new(alloc),
            room: 0,
        }
    }

    /// Adds a command behind the others, which may stand there; without memory all stays as it was.
    pub fn add(&mut self, command: Command) -> Result<(), NoMemory>
        requires few { length (G.commands self.old.base.now ++ self.old.added.items) < max_commands }
        requires next { IsNext (G.commands self.old.base.now ++ self.old.added.items) command }
        ensures base { G.commands self.new.base.now ≡ G.commands self.old.base.now }
        ensures added { OnOk result (self.new.added.items ≡ self.old.added.items ++ command ∷ []) }
        ensures same { OnErr result (self.new.added.items ≡ self.old.added.items) }
    {
        self.widen(1)?;
        self.put(command);
        Ok(())
    }

    /// What was added, in order. The commands are moved, not copied.
    pub fn into_added(self, alloc: Global) -> Result<Commands, NoMemory>
        ensures { IfOk result (λ added. added ≡ self.entry.added.items) }
    {
        let added = gathered(alloc, self.added)?;
        Ok(added)
    }

    fn widen(&mut self, more: usize) -> Result<(), NoMemory>
        ensures base { G.commands self.new.base.now ≡ G.commands self.old.base.now }
        ensures added { self.new.added.items ≡ self.old.added.items }
        ensures ok { OnOk result (more ≤ self.new.room) }
        ensures kept { self.old.room ≤ self.new.room }
    {
        if self.room < more {
            self.ids.reserve(more)?;
            self.added.reserve(more)?;
            self.room = more;
        }
        Ok(())
    }

    fn put(&mut self, command: Command)
        requires room { 0 < self.old.room }
        requires few { length (G.commands self.old.base.now ++ self.old.added.items) < max_commands }
        requires formed { IsInForm command }
        requires fresh { IsHeld (G.commands self.old.base.now ++ self.old.added.items) (command_id command) → ⊥ }
        requires held { (parent : List ℕ) → Contains (parents_of command) parent → IsHeld (G.commands self.old.base.now ++ self.old.added.items) parent }
        requires cut { (stated : ℕ) → carried command ≡ Some stated → stated ≡ cut_behind (G.commands self.old.base.now ++ self.old.added.items) command }
        ensures base { G.commands self.new.base.now ≡ G.commands self.old.base.now }
        ensures added { self.new.added.items ≡ self.old.added.items ++ command ∷ [] }
        ensures room { self.new.room + 1 ≡ self.old.room }
    {
        let id = id_of(&command);
        note(&mut self.ids, id);
        store(&mut self.added, command);
        self.room -= 1;
    }

    /// Adds the places of the added commands whose ids aren't among these.
    fn add_heads(
        &self,
        alloc: Global,
        heads: &mut Places,
        parents: &IndexSet<Id>,
    ) -> Result<(), NoMemory>
        ensures { OnOk result (heads.new ≡ heads.old ++ places_without (λ id. list_any (bytes_eq id) parents.now.keys) (length (G.commands self.now.base.now)) self.now.added.items) }
    {
        for place in self.base.len()..self.len() {
            add_head(alloc, heads, parents, &self.id_at(place), place)?;
        }
        Ok(())
    }

    /// Finds the command with this id, unless it is older than the oldest of the walk.
    fn find(&self, walk: &mut Walk, older: usize, id: &Id) -> Result<(), NoMemory>
        requires { (p : ℕ) → place_of (G.commands self.now.base.now ++ self.now.added.items) id.now ≡ Some p → p < older + length walk.old.marks.items }
        ensures { OnOk result (MarksWhere (IsNumbered (G.commands self.now.base.now ++ self.now.added.items) older (id.now ∷ [])) walk.old.marks.items walk.old.due.items walk.new.marks.items walk.new.due.items) }
    {
        match self.place_of(id) {
            Some(place) if older <= place => walk.add(place - older),
            _ => Ok(()),
        }
    }

    /// The same for each of some ids.
    fn find_all(&self, walk: &mut Walk, older: usize, ids: &[Id]) -> Result<(), NoMemory>
        requires { (id : List ℕ) (p : ℕ) → Contains ids.now id → place_of (G.commands self.now.base.now ++ self.now.added.items) id ≡ Some p → p < older + length walk.old.marks.items }
        ensures { OnOk result (MarksWhere (IsNumbered (G.commands self.now.base.now ++ self.now.added.items) older ids.now) walk.old.marks.items walk.old.due.items walk.new.marks.items walk.new.due.items) }
    {
        for id in ids {
            self.find(walk, older, id)?;
        }
        Ok(())
    }

    /// Finds the parents of a command.
    fn find_parents(&self, walk: &mut Walk, older: usize, command: &Command) -> Result<(), NoMemory>
        requires { (id : List ℕ) (p : ℕ) → Contains (parents_of command.now) id → place_of (G.commands self.now.base.now ++ self.now.added.items) id ≡ Some p → p < older + length walk.old.marks.items }
        ensures { OnOk result (MarksWhere (IsNumbered (G.commands self.now.base.now ++ self.now.added.items) older (parents_of command.now)) walk.old.marks.items walk.old.due.items walk.new.marks.items walk.new.due.items) }
    {
        let parents = command.parents();
        self.find_all(walk, older, parents.as_slice())
    }

    /// Whether a walk back from the newer command finds the older one.
    fn is_found(&self, alloc: Global, older: usize, newer: usize) -> Result<bool, NoMemory>
        requires order { older < newer }
        requires newer { newer < length (G.commands self.now.base.now ++ self.now.added.items) }
        ensures { IfOk result (λ found. (x y : TheCommand) → IsAt (G.commands self.now.base.now ++ self.now.added.items) older x → IsAt (G.commands self.now.base.now ++ self.now.added.items) newer y
            → IsTrue found ↔ Ancestor (G.commands self.now.base.now ++ self.now.added.items) x y) }
    {
        let mut walk = Walk::begin(alloc, newer - older)?;
        while let Some(number) = walk.next() {
            self.find_parents(&mut walk, older, self.at(older + number))?;
        }
        Ok(walk.is_ended())
    }
}

impl<'a, G: Graph> Graph for Over<'a, G> {
    ghost commands = { λ graph. G.commands graph.base.now ++ graph.added.items };

    ghost room = { λ graph. graph.room };

    ghost closed = { λ graph. graph.graph.closed };

    ghost few = { λ graph. graph.graph.few };

    /// There is no graph to borrow, so this always runs out of memory.
    fn empty(_alloc: Global) -> Result<Over<'a, G>, NoMemory> {
        Err(NoMemory)
    }

    fn len(&self) -> usize {
        self.base.len() + self.added.len()
    }

    fn at(&self, place: usize) -> &Command {
        let below = self.base.len();
        if place < below {
            self.base.at(place)
        } else {
            &self.added[place - below]
        }
    }

    fn id_at(&self, place: usize) -> Id {
        let below = self.base.len();
        if place < below {
            return self.base.id_at(place);
        }
        match self.ids.get_index(place - below) {
            Some(id) => *id,
            None => unreachable!(),
        }
    }

    fn place_of(&self, id: &Id) -> Option<usize> {
        if let Some(place) = self.base.place_of(id) {
            return Some(place);
        }
        match self.ids.get_index_of(id) {
            Some(place) => Some(self.base.len() + place),
            None => None,
        }
    }

    fn is_ancestor(&self, alloc: Global, older: usize, newer: usize) -> Result<bool, NoMemory> {
        if newer <= older {
            return Ok(false);
        }
        if newer < self.base.len() {
            let found = self.base.is_ancestor(alloc, older, newer)?;
            return Ok(found);
        }
        self.is_found(alloc, older, newer)
    }

    fn heads(&self, alloc: Global) -> Result<Places, NoMemory> {
        let parents = parents_of_all(alloc, self.added.as_slice())?;
        let below = self.base.heads(alloc)?;
        let mut heads = without_parents(alloc, self.base, &parents, below.as_slice())?;
        self.add_heads(alloc, &mut heads, &parents)?;
        Ok(heads)
    }

    fn spare(&self) -> usize {
        self.room
    }

    fn reserve(&mut self, _alloc: Global, more: usize) -> Result<(), NoMemory> {
        self.widen(more)
    }

    fn append(&mut self, command: Command) -> usize {
        let place = self.len();
        self.put(command);
        place
    }

    fn copy(&self, alloc: Global) -> Result<Over<'a, G>, NoMemory> {
        let mut copy = Over::on(alloc, self.base);
        for place in 0..self.added.len() {
            let command = self.added[place].copy(alloc)?;
            copy.add(command)?;
        }
        Ok(copy)
    }
}
