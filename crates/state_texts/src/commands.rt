//! The line `graph`.

ghost use Rattle.std.specs.Prelude.{◌≡◌, ◌<◌, IfOk, Some, length, slice_get};
ghost use Rattle.command.specs.declared.command.Command.{Command as TheCommand};
ghost use Rattle.script_texts.specs.Shown.{command_text};
ghost use Rattle.state_texts.specs.States.{command_line, graph_text, shown_command};

use base_bytes::{Bytes, Id, NoMemory, Text};
use command::{Command, Graph};
use script_texts::{ShownCommand, command_text, count_text};
use std::alloc::Global;

fn shown(alloc: Global, command: &Command) -> Result<ShownCommand, NoMemory>
    ensures { IfOk result (λ it. it ≡ shown_command command.now) }
{
    match command {
        Command::Init { name, .. } => Ok(ShownCommand::Init(name.copy(alloc)?)),
        Command::Basic {
            priority,
            parent,
            name,
            ..
        } => Ok(ShownCommand::Basic(name.copy(alloc)?, *priority, *parent)),
        Command::Finalize { parent, name, .. } => {
            Ok(ShownCommand::Finalize(name.copy(alloc)?, *parent))
        }
        Command::Merge { left, right, .. } => Ok(ShownCommand::Merge(*left, *right)),
    }
}

fn shown_text(alloc: Global, id: &Id, command: &Command) -> Result<Bytes, NoMemory>
    ensures { IfOk result (λ text. text ≡ command_text id.now (shown_command command.now)) }
{
    let words = shown(alloc, command)?;
    command_text(alloc, id, &words)
}

/// The line of the command at a place.
fn line_at<G: Graph>(alloc: Global, graph: &G, place: usize) -> Result<Bytes, NoMemory>
    requires place { place < length (G.commands graph.now) }
    ensures { IfOk result (λ text. (c : TheCommand) → slice_get (G.commands graph.now) place ≡ Some c → text ≡ command_line c) }
{
    shown_text(alloc, &graph.id_at(place), graph.at(place))
}

/// `graph A: N`, and behind it a line for each command that is held, in stored order: its id, its kind and name, its priority and its parents.
#[tactic(auto, using(crate::proofs::Behind::line_behind))]
pub fn graph_text<G: Graph>(alloc: Global, name: &Text, graph: &G) -> Result<Bytes, NoMemory>
    ensures { IfOk result (λ text. text ≡ graph_text name.now (G.commands graph.now)) }
{
    let mut text = count_text(alloc, "graph", &[name.as_str()], graph.len())?;
    for place in 0..graph.len() {
        let line = line_at(alloc, graph, place)?;
        text.extend(alloc, line.as_slice())?;
    }
    Ok(text)
}
