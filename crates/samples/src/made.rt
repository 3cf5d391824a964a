// Graphs that are made step by step.
ghost use Rattle.std.specs.Prelude.{◌≡◌, ◌<◌, ◌≤◌, ◌↔◌, IsTrue, IfOk, IfSome, List, Some, ℕ, length};
ghost use Rattle.std.specs.List.{All, Contains};
ghost use Rattle.command.specs.Closed.{IsHeld};
ghost use Rattle.command.specs.Cuts.{cut_behind};
ghost use Rattle.command.specs.Kinds.{carried, parents_of};
ghost use Rattle.command.specs.Wire.{IsInForm};

use base_bytes::{Bytes, Id, NoMemory, Tag, Text};
use braid::braid;
use command::{Command, Graph, MAX_COMMANDS, Places, id_of};
use std::alloc::Global;
use std::cmp::Ordering;

/// A command by its kind: the priority of a basic one, the places of the parents, and last the one byte of its payload.
#[derive(Clone, Copy)]
pub enum Step {
    Init(u8),
    Basic(u32, usize, u8),
    Finalize(usize, u8),
    Merge(usize, usize),
}

const DIGEST: [u8; 32] = [1; 32];

const AUTHOR: [u8; 32] = [2; 32];

fn payload(alloc: Global, byte: u8) -> Result<Bytes, NoMemory>
    ensures { IfOk result (λ payload. length payload ≤ 4096) }
{
    Bytes::from_slice(alloc, &[byte])
}

fn tag() -> Tag {
    Tag::from_slice(&[]).unwrap()
}

/// The id of the command at a place, and None where none stands there.
pub fn id_at<G: Graph>(graph: &G, place: usize) -> Option<Id> {
    if place < graph.len() {
        Some(graph.id_at(place))
    } else {
        None
    }
}

fn init(alloc: Global, byte: u8) -> Result<Command, NoMemory>
    ensures { IfOk result IsInForm }
{
    Ok(Command::Init {
        cut: None,
        digest: Id::new(DIGEST),
        author: Id::new(AUTHOR),
        name: Text::from_slice(alloc, "c")?,
        payload: payload(alloc, byte)?,
        tag: tag(),
    })
}

fn basic(alloc: Global, byte: u8, priority: u32, parent: Id) -> Result<Command, NoMemory>
    ensures { IfOk result IsInForm }
{
    Ok(Command::Basic {
        cut: None,
        priority,
        parent,
        author: Id::new(AUTHOR),
        name: Text::from_slice(alloc, "c")?,
        payload: payload(alloc, byte)?,
        tag: tag(),
    })
}

fn finalize(alloc: Global, byte: u8, parent: Id) -> Result<Command, NoMemory>
    ensures { IfOk result IsInForm }
{
    Ok(Command::Finalize {
        cut: None,
        parent,
        author: Id::new(AUTHOR),
        name: Text::from_slice(alloc, "c")?,
        payload: payload(alloc, byte)?,
        tag: tag(),
    })
}

fn merge(one: Id, other: Id) -> Option<Command>
    ensures { IfSome result IsInForm }
{
    match one.cmp(&other) {
        Ordering::Less => Some(Command::Merge {
            cut: None,
            left: one,
            right: other,
        }),
        Ordering::Greater => merge_in_order(other, one),
        Ordering::Equal => None,
    }
}

fn merge_in_order(left: Id, right: Id) -> Option<Command>
    ensures { IfSome result IsInForm }
{
    match left.cmp(&right) {
        Ordering::Less => Some(Command::Merge {
            cut: None,
            left,
            right,
        }),
        _ => None,
    }
}

/// The command of a step, and None where its parents aren't there.
pub fn command<G: Graph>(alloc: Global, graph: &G, step: Step) -> Result<Option<Command>, NoMemory>
    ensures { IfOk result (λ found. IfSome found IsInForm) }
{
    match step {
        Step::Init(byte) => Ok(Some(init(alloc, byte)?)),
        Step::Basic(priority, parent, byte) => match id_at(graph, parent) {
            Some(parent) => Ok(Some(basic(alloc, byte, priority, parent)?)),
            None => Ok(None),
        },
        Step::Finalize(parent, byte) => match id_at(graph, parent) {
            Some(parent) => Ok(Some(finalize(alloc, byte, parent)?)),
            None => Ok(None),
        },
        Step::Merge(one, other) => match (id_at(graph, one), id_at(graph, other)) {
            (Some(one), Some(other)) => Ok(merge(one, other)),
            _ => Ok(None),
        },
    }
}

fn is_held<G: Graph>(graph: &G, id: &Id) -> bool
    ensures { IsTrue result ↔ IsHeld (G.commands graph.now) id.now }
{
    graph.place_of(id).is_some()
}

fn are_parents_held<G: Graph>(graph: &G, command: &Command) -> bool
    ensures { IsTrue result → (parent : List ℕ) → Contains (parents_of command.now) parent → IsHeld (G.commands graph.now) parent }
{
    match command {
        Command::Init { .. } => true,
        Command::Basic { parent, .. } => is_held(graph, parent),
        Command::Finalize { parent, .. } => is_held(graph, parent),
        Command::Merge { left, right, .. } => is_held(graph, left) && is_held(graph, right),
    }
}

// No cut is stated, which is then no wrong one.
fn states_no_cut<G: Graph>(_graph: &G, command: &Command) -> bool
    ensures { IsTrue result → (stated : ℕ) → carried command.now ≡ Some stated → stated ≡ cut_behind (G.commands _graph.now) command.now }
{
    command.cut().is_none()
}

/// Appends a command of version 1, where that is allowed.
pub fn append<G: Graph>(graph: &mut G, command: Command) -> bool
    requires { IsInForm command }
{
    let id = id_of(&command);
    if graph.spare() == 0 {
        return false;
    }
    if graph.len() >= MAX_COMMANDS {
        return false;
    }
    if is_held(graph, &id) {
        return false;
    }
    if !are_parents_held(graph, &command) {
        return false;
    }
    if !states_no_cut(graph, &command) {
        return false;
    }
    graph.append(command);
    true
}

/// The graph of the steps, and None where one of them isn't allowed.
pub fn made<G: Graph + Drop>(alloc: Global, steps: &[Step]) -> Result<Option<G>, NoMemory> {
    let mut graph = G::empty(alloc)?;
    graph.reserve(alloc, steps.len())?;
    for step in steps {
        let Some(command) = command(alloc, &graph, *step)? else {
            return Ok(None);
        };
        if !append(&mut graph, command) {
            return Ok(None);
        }
    }
    Ok(Some(graph))
}

fn are_within(places: &[usize], length: usize) -> bool
    ensures { IsTrue result ↔ All (λ p. p < length) places.now }
{
    places.iter().all(|place| *place < length)
}

/// The braid of these places, and None where one of them is no command's.
pub fn braided<G: Graph>(
    alloc: Global,
    graph: &G,
    tips: &[usize],
) -> Result<Option<Places>, NoMemory> {
    if are_within(tips, graph.len()) {
        Ok(Some(braid(alloc, graph, tips)?))
    } else {
        Ok(None)
    }
}
