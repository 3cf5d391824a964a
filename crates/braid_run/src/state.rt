//! What a replica keeps of one graph: the commands, and the facts and entries of their run.

ghost use Rattle.std.specs.Prelude.{◌≡◌, ◌+◌, ◌<◌, ◌≤◌, [], ◌∷◌, ◌++◌, length, Some, None, IfOk, OnOk};
ghost use Rattle.braid_run.specs.Soundness.{IsSoundExtension, IsSound, Criteria};
ghost use Rattle.braid_run.specs.States.{IsStanding, extended};
ghost use Rattle.command.specs.Closed.{IsClosed, IsNext, max_commands};

use crate::{Entries, Ran};
use base_bytes::{Id, NoMemory};
use command::{Command, Commands, Graph};
use fact_store::FactBase;
use std::alloc::Global;
use std::marker::Model;

/// A graph's id, where it is known, its commands, and their facts and entries. Contracts see what is held, and beside it the room for more.
/// Of every state it is known that its commands are closed and at most 65,536, that the one init is first and has the graph's id, and that of two
/// finalize commands one is the other's ancestor. What a sound state promises besides, for a policy and a type of envelopes, its calls keep.
#[derive(Drop)]
pub struct State<G: Graph, F: FactBase> {
    id: Option<Id>,
    graph: G,
    facts: F,
    entries: Entries,
}

impl<G: Graph, F: FactBase> Model for State<G, F> {
    ghost use Rattle.std.specs.Coded.{codes};
    ghost use Rattle.base_bytes.specs.contracts.value.Value as value;
    ghost use Rattle.braid_run.specs.States.{IsStanding, HeldAndRoom};

    ghost Value = { HeldAndRoom };

    ghost coded = { Prim.hlevel (codes, value.the_row.coded) };

    ghost view = { λ s. record {
      held = record { graph_id = s.id; commands = G.commands s.graph; rows = F.rows s.facts; entries = s.entries.all };
      room = G.room s.graph;
      entry_room = s.entries.room;
    } };

    ghost invariant = { λ s. IsStanding s.id (G.commands s.graph) };
}

/// Appends a command that may stand behind the others.
fn append_one<G: Graph>(graph: &mut G, command: Command)
    requires room { 0 < G.room graph.old }
    requires few { length (G.commands graph.old) < max_commands }
    requires next { IsNext (G.commands graph.old) command }
    ensures commands { G.commands graph.new ≡ G.commands graph.old ++ command ∷ [] }
    ensures room { G.room graph.new + 1 ≡ G.room graph.old }
{
    graph.append(command);
}

/// Appends the commands, for which there is room, in their order.
fn append_all<G: Graph>(graph: &mut G, commands: Vec<Command>)
    requires room { length commands.items ≤ G.room graph.old }
    requires closed { IsClosed (G.commands graph.old ++ commands.items) }
    requires few { length (G.commands graph.old ++ commands.items) ≤ max_commands }
    ensures commands { G.commands graph.new ≡ G.commands graph.old ++ commands.items }
    ensures room { G.room graph.new + length commands.items ≡ G.room graph.old }
{
    for command in commands {
        append_one(graph, command);
    }
}

impl<G: Graph, F: FactBase> State<G, F> {
    /// A state of no graph: it has no id, no commands, no facts and no entries. It is sound.
    pub fn empty(alloc: Global) -> Result<State<G, F>, NoMemory>
        ensures held { IfOk result (λ state. state.held ≡ record { graph_id = None; commands = []; rows = []; entries = [] }) }
        ensures sound { IfOk result (λ state. (criteria : Criteria) → IsSound criteria state.held) }
    {
        Ok(State {
            id: None,
            graph: G::empty(alloc)?,
            facts: F::empty(alloc),
            entries: Entries::new(alloc),
        })
    }

    /// The graph's id, and None exactly where none is known. Takes no memory.
    pub fn graph_id(&self) -> Option<Id>
        ensures { result ≡ self.now.held.graph_id }
    {
        self.id
    }

    /// The graph of the commands, of which all is said that is true of every state.
    pub fn graph(&self) -> &G
        ensures commands { G.commands result.now ≡ self.now.held.commands }
        ensures standing { IsStanding self.now.held.graph_id self.now.held.commands }
    {
        &self.graph
    }

    pub fn facts(&self) -> &F
        ensures { F.rows result.now ≡ self.now.held.rows }
    {
        &self.facts
    }

    /// The entries. A sound state has those of running the braid, in its order.
    pub fn entries(&self) -> &Entries
        ensures { result.now.all ≡ self.now.held.entries }
    {
        &self.entries
    }

    /// Names the graph, which has no id yet, and so no commands. A sound state stays sound. Takes no memory.
    pub fn name_graph(&mut self, id: Id)
        requires unnamed { self.old.held.graph_id ≡ None }
        ensures named { self.new ≡ record self.old { held = record self.old.held { graph_id = Some id } } }
        ensures empty { self.old.held.commands ≡ [] }
        ensures sound { (criteria : Criteria) → IsSound criteria self.old.held → IsSound criteria self.new.held }
    {
        self.id = Some(id);
    }

    /// Makes room for so many more commands and entries. What is held stays, also without memory, and no room is lost.
    pub fn reserve(
        &mut self,
        alloc: Global,
        commands: usize,
        entries: usize,
    ) -> Result<(), NoMemory>
        ensures held { self.new.held ≡ self.old.held }
        ensures room { OnOk result (commands ≤ self.new.room) }
        ensures entry_room { OnOk result (entries ≤ self.new.entry_room) }
        ensures kept { (self.old.room ≤ self.new.room) × (self.old.entry_room ≤ self.new.entry_room) }
    {
        self.graph.reserve(alloc, commands)?;
        self.entries.reserve(alloc, entries)
    }

    /// Appends the commands, keeps the first `cut` entries and adds those that were run, and takes the facts. There is room, and the commands behind
    /// it are as every state's. Takes no memory. A sound state stays sound where the new commands are lawful, the braids before and after have their
    /// first `cut` commands in common, and what was run is the new braid's run from there on.
    pub fn extend(&mut self, commands: Commands, cut: usize, ran: Ran<F>)
        requires room { length commands ≤ self.old.room }
        requires entry_room { length ran.entries.all ≤ self.old.entry_room }
        requires standing { IsStanding self.old.held.graph_id (self.old.held.commands ++ commands) }
        ensures held { self.new.held ≡ extended self.old.held commands cut (F.rows ran.facts) ran.entries.all }
        ensures room { self.new.room + length commands ≡ self.old.room }
        ensures entry_room { self.old.entry_room ≤ self.new.entry_room + length ran.entries.all }
        ensures sound { (criteria : Criteria) → IsSound criteria self.old.held → IsSoundExtension criteria self.old.held.commands commands cut (F.rows ran.facts) ran.entries.all → IsSound criteria self.new.held }
    {
        let Ran { facts, entries } = ran;
        append_all(&mut self.graph, commands.into_vec());
        self.entries.truncate(cut);
        self.entries.append(entries);
        self.facts = facts;
    }

    /// An equal state, made of copies of the graph, the facts and the entries.
    pub fn copy(&self, alloc: Global) -> Result<State<G, F>, NoMemory>
        ensures { IfOk result (λ state. state.held ≡ self.now.held) }
    {
        Ok(State {
            id: self.id,
            graph: self.graph.copy(alloc)?,
            facts: self.facts.copy(alloc)?,
            entries: self.entries.copy(alloc)?,
        })
    }
}
