//! Adding commands to a state, where what is held stands afterwards.

ghost use Rattle.std.specs.Prelude.{◌≡◌, ◌↔◌, ℕ, List, [], ◌∷◌, ◌++◌, IsTrue, Some};
ghost use Rattle.std.specs.List.{Contains};
ghost use Rattle.braid_run.specs.States.{IsStanding, MayFollow};
ghost use Rattle.command.specs.Closed.{IsHeld};
ghost use Rattle.command.specs.Cuts.{cut_behind};
ghost use Rattle.command.specs.Kinds.{carried, parents_of};
ghost use Rattle.command.specs.Wire.{IsInForm};

use base_bytes::{Id, NoMemory};
use braid_run::laws::additions_stand;
use braid_run::{Ran, State};
use command::{Command, Commands, Graph, MAX_COMMANDS, id_of};
use fact_store::Facts;
use graph_set::ListGraph;
use std::alloc::Global;

pub type Tried = State<ListGraph, Facts>;

fn is_held<G: Graph>(graph: &G, id: &Id) -> bool
    ensures { IsTrue result ↔ IsHeld (G.commands graph.now) id.now }
{
    graph.place_of(id).is_some()
}

fn has_parents<G: Graph>(graph: &G, command: &Command) -> bool
    ensures { IsTrue result → (parent : List ℕ) → Contains (parents_of command.now) parent → IsHeld (G.commands graph.now) parent }
{
    match command {
        Command::Init { .. } => true,
        Command::Basic { parent, .. } => is_held(graph, parent),
        Command::Finalize { parent, .. } => is_held(graph, parent),
        Command::Merge { left, right, .. } => is_held(graph, left) && is_held(graph, right),
    }
}

// No cut is stated, which is then no wrong one.
fn states_no_cut<G: Graph>(_graph: &G, command: &Command) -> bool
    ensures { IsTrue result → (stated : ℕ) → carried command.now ≡ Some stated → stated ≡ cut_behind (G.commands _graph.now) command.now }
{
    command.cut().is_none()
}

/// Whether the command of version 1, which isn't a finalize, may follow what the state holds.
fn may_follow(state: &Tried, command: &Command) -> bool
    requires { IsInForm command.now }
    ensures { IsTrue result → MayFollow state.now.held.graph_id state.now.held.commands command.now }
{
    let graph = state.graph();
    let id = id_of(command);
    if is_held(graph, &id) {
        return false;
    }
    if !has_parents(graph, command) {
        return false;
    }
    if !states_no_cut(graph, command) {
        return false;
    }
    if graph.len() >= MAX_COMMANDS {
        return false;
    }
    match command {
        Command::Init { .. } => graph.len() == 0 && state.graph_id() == Some(id),
        Command::Finalize { .. } => false,
        _ => true,
    }
}

/// The same, for what the state holds then.
fn stands_with(state: &Tried, command: &Command) -> bool
    requires { IsInForm command.now }
    ensures { IsTrue result → IsStanding state.now.held.graph_id (state.now.held.commands ++ command.now ∷ []) }
{
    let _graph = state.graph();
    additions_stand();
    may_follow(state, command)
}

/// Adds a command to the state, with a cut and what was run, and answers whether it may be added.
pub fn add(
    alloc: Global,
    state: &mut Tried,
    command: Command,
    cut: usize,
    ran: Ran<Facts>,
) -> Result<bool, NoMemory>
    requires { IsInForm command }
{
    if !stands_with(state, &command) {
        return Ok(false);
    }
    let mut commands = Commands::new(alloc);
    commands.push(alloc, command)?;
    state.reserve(alloc, 1, ran.entries.len())?;
    state.extend(commands, cut, ran);
    Ok(true)
}
