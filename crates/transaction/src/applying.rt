ghost use Rattle.std.specs.Prelude.{◌≡◌, [], ◌∷◌, ◌++◌, None, IfSome, length};
ghost use Rattle.braid_run.specs.Soundness.{Criteria, IsSound};
ghost use Rattle.command.specs.Closed.{IsClosed};
ghost use Rattle.transaction.specs.Applying.{IsPublishedOn, IsReady, applied, graph_named};

use crate::acting::Prepared;
use braid_run::{Ran, State};
use command::{Command, Graph, id_of};
use fact_store::FactBase;

/// Names the graph, where it has no id yet, by the first of these commands.
fn name_by_first<G: Graph, F: FactBase>(state: &mut State<G, F>, commands: &[Command])
    requires closed { IsClosed (state.old.held.commands ++ commands.now) }
    ensures held { state.new.held ≡ record state.old.held { graph_id = graph_named state.old.held.graph_id commands.now } }
    ensures room { (state.new.room ≡ state.old.room) × (state.new.entry_room ≡ state.old.entry_room) }
{
    if state.graph_id().is_none() {
        if let Some(first) = commands.first() {
            state.name_graph(id_of(first));
        }
    }
}

/// Applies what was prepared for this state: the commands stand behind those held, the entries behind those held, and the facts are the new ones. A
/// graph without an id gets that of its first command. A sound state stays sound. Takes no memory.
pub fn apply<G: Graph, F: FactBase>(state: &mut State<G, F>, prepared: Prepared<F>)
    requires ready { IsReady state.old (record { commands = prepared.commands; merges = prepared.merges; entries = prepared.entries.all; rows = F.rows prepared.facts }) }
    ensures held { state.new.held ≡ applied state.old.held (record { commands = prepared.commands; merges = prepared.merges; entries = prepared.entries.all; rows = F.rows prepared.facts }) }
    ensures sound { (criteria : Criteria) → IsSound criteria state.old.held
        → IsPublishedOn criteria state.old.held (record { commands = prepared.commands; merges = prepared.merges; entries = prepared.entries.all; rows = F.rows prepared.facts }) → IsSound criteria state.new.held }
{
    let Prepared {
        commands,
        entries,
        facts,
        ..
    } = prepared;
    name_by_first(state, commands.as_slice());
    let cut = state.entries().len();
    state.extend(commands, cut, Ran { facts, entries });
}
