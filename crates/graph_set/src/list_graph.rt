ghost use Rattle.std.specs.Prelude.{◌≡◌, ◌≤◌, ◌<◌, ◌+◌, [], ◌∷◌, ◌++◌, IsOk, IfOk, OnOk, length, map, vec_capacity};
ghost use Rattle.command.specs.Ancestors.{heads};
ghost use Rattle.command.specs.Closed.{IsHeld};
ghost use Rattle.command.specs.Wire.{IsFormed, IsInForm, command_id};
ghost use Rattle.graph_set.specs.working.Held.{IsGraph, graph_prop};
ghost use Rattle.indexmap.specs.IndexMap.{keys, spare, values};

use crate::heads::{copied, keep_others, put_place};
use crate::walk::Walk;
use base_bytes::{Id, NoMemory};
use command::{Command, Graph, Places, id_of};
use indexmap::IndexMap;
use std::alloc::Global;

/// A graph as the list of its commands, each under its id, and the places of its heads.
#[derive(Drop)]
pub struct ListGraph {
    commands: IndexMap<Id, Command>,
    tips: Vec<usize>,
    room: usize,
    ghost graph: { IsGraph (keys commands) (values commands) } by { graph_prop (keys commands) (values commands) },
    ghost roomy: { room ≤ spare commands },
    ghost heads: { tips.items ≡ heads (values commands) },
    ghost places: { length tips.items + room ≤ vec_capacity tips },
}

/// Puts a command behind the others, under its id, which none of them has.
fn put(commands: &mut IndexMap<Id, Command>, command: Command) -> Result<(), NoMemory>
    requires formed { IsInForm command }
    requires named { keys commands.old ≡ map command_id (values commands.old) }
    requires fresh { IsHeld (values commands.old) (command_id command) → ⊥ }
    ensures succeeds { 0 < spare commands.old → IsOk result }
    ensures formed { OnOk result (IsFormed command) }
    ensures keys { OnOk result (keys commands.new ≡ map command_id (values commands.new)) }
    ensures values { OnOk result (values commands.new ≡ values commands.old ++ command ∷ []) }
    ensures spare { spare commands.old ≤ spare commands.new + 1 }
{
    let id = id_of(&command);
    commands.insert(id, command)?;
    Ok(())
}

impl ListGraph {
    ghost use Rattle.std.specs.Prelude.{ℕ, ◌<◌, Bool, List, Some, length};
    ghost use Rattle.std.specs.List.{Contains};
    ghost use Rattle.command.specs.Closed.{place_of};
    ghost use Rattle.command.specs.Kinds.{parents_of};
    ghost use Rattle.graph_set.specs.working.Walks.{IsNumbered, MarksWhere};

    /// Finds the command with this id, unless it is older than the oldest of the walk.
    fn find(&self, walk: &mut Walk, older: usize, id: &Id) -> Result<(), NoMemory>
        requires { (p : ℕ) → place_of (values self.now.commands) id.now ≡ Some p → p < older + length walk.old.marks.items }
        ensures { OnOk result (MarksWhere (IsNumbered (values self.now.commands) older (id.now ∷ [])) walk.old.marks.items walk.old.due.items walk.new.marks.items walk.new.due.items) }
    {
        match self.place_of(id) {
            Some(place) if older <= place => walk.add(place - older),
            _ => Ok(()),
        }
    }

    /// The same for each of some ids.
    fn find_all(&self, walk: &mut Walk, older: usize, ids: &[Id]) -> Result<(), NoMemory>
        requires { (id : List ℕ) (p : ℕ) → Contains ids.now id → place_of (values self.now.commands) id ≡ Some p → p < older + length walk.old.marks.items }
        ensures { OnOk result (MarksWhere (IsNumbered (values self.now.commands) older ids.now) walk.old.marks.items walk.old.due.items walk.new.marks.items walk.new.due.items) }
    {
        for id in ids {
            self.find(walk, older, id)?;
        }
        Ok(())
    }

    /// Finds the parents of a command.
    fn find_parents(&self, walk: &mut Walk, older: usize, command: &Command) -> Result<(), NoMemory>
        requires { (id : List ℕ) (p : ℕ) → Contains (parents_of command.now) id → place_of (values self.now.commands) id ≡ Some p → p < older + length walk.old.marks.items }
        ensures { OnOk result (MarksWhere (IsNumbered (values self.now.commands) older (parents_of command.now)) walk.old.marks.items walk.old.due.items walk.new.marks.items walk.new.due.items) }
    {
        let parents = command.parents();
        self.find_all(walk, older, parents.as_slice())
    }
}

impl Graph for ListGraph {
    ghost use Rattle.indexmap.specs.IndexMap.{values};

    ghost commands = { λ graph. values graph.commands };

    ghost room = { λ graph. graph.room };

    ghost closed = { λ graph. graph.graph.closed };

    ghost few = { λ graph. graph.graph.few };

    fn empty(alloc: Global) -> Result<ListGraph, NoMemory> {
        Ok(ListGraph {
            commands: IndexMap::new(alloc),
            tips: Vec::new(alloc),
            room: 0,
        })
    }

    fn len(&self) -> usize {
        self.commands.len()
    }

    fn at(&self, place: usize) -> &Command {
        match self.commands.get_index(place) {
            Some((_, command)) => command,
            None => unreachable!(),
        }
    }

    fn id_at(&self, place: usize) -> Id {
        match self.commands.get_index(place) {
            Some((id, _)) => *id,
            None => unreachable!(),
        }
    }

    fn place_of(&self, id: &Id) -> Option<usize> {
        self.commands.get_index_of(id)
    }

    fn is_ancestor(&self, alloc: Global, older: usize, newer: usize) -> Result<bool, NoMemory> {
        if newer <= older {
            return Ok(false);
        }
        let mut walk = Walk::begin(alloc, newer - older)?;
        while let Some(number) = walk.next() {
            self.find_parents(&mut walk, older, self.at(older + number))?;
        }
        Ok(walk.is_ended())
    }

    fn heads(&self, alloc: Global) -> Result<Places, NoMemory> {
        Places::from_slice(alloc, self.tips.as_slice())
    }

    fn spare(&self) -> usize {
        self.room
    }

    fn reserve(&mut self, _alloc: Global, more: usize) -> Result<(), NoMemory> {
        if self.room < more {
            self.commands.reserve(more)?;
            self.tips.reserve(more)?;
            self.room = more;
        }
        Ok(())
    }

    fn append(&mut self, command: Command) -> usize {
        let place = self.commands.len();
        let ids = command.parents();
        keep_others(&mut self.tips, &self.commands, ids.as_slice());
        put_place(&mut self.tips, place);
        match put(&mut self.commands, command) {
            Ok(()) => {}
            Err(NoMemory) => unreachable!(),
        }
        self.room -= 1;
        place
    }

    fn copy(&self, alloc: Global) -> Result<ListGraph, NoMemory> {
        let mut commands = IndexMap::with_capacity(alloc, self.len())?;
        for place in 0..self.len() {
            let command = self.at(place).copy(alloc)?;
            put(&mut commands, command)?;
        }
        let tips = copied(alloc, self.tips.as_slice())?;
        Ok(ListGraph {
            commands,
            tips,
            room: 0,
        })
    }
}
