// Commands that are spelled byte by byte, behind commands that are held, and graphs of them.
ghost use Rattle.std.specs.Prelude.{IfOk, IfSome};
ghost use Rattle.command.specs.Wire.{IsInForm};

use crate::player::DIGEST;
use base_bytes::{Bytes, Id, NoMemory};
use command::{Command, Graph, from_bytes};
use graph_set::ListGraph;
use outside::{Envelope, TagEnvelope};
use samples::made::{append, id_at};
use std::alloc::Global;

/// A field of a payload.
#[derive(Clone, Copy)]
pub enum Field {
    Int(i64),
    Str(&'static str),
    /// An id of 32 times this byte.
    Ident(u8),
    /// The ordinal of an enum's variant.
    Variant(u16),
    /// Bytes that are no value.
    Other(&'static [u8]),
}

/// The kind of a command, with its priority and the places of its parents.
#[derive(Clone, Copy)]
pub enum Kind {
    Init,
    Basic(u32, usize),
    Finalize(usize),
    Merge(usize, usize),
}

/// A command: its kind, its author, whose id is 32 times this byte, its name, and the fields of its payload.
#[derive(Clone, Copy)]
pub struct Step(pub Kind, pub u8, pub &'static str, pub &'static [Field]);

fn push_field(alloc: Global, into: &mut Bytes, field: Field) -> Result<(), NoMemory> {
    match field {
        Field::Int(number) => into.extend(alloc, &number.to_be_bytes()),
        Field::Str(text) => {
            into.extend(alloc, &u32::try_from(text.len()).unwrap_or(0).to_be_bytes())?;
            into.extend(alloc, text.as_bytes())
        }
        Field::Ident(byte) => into.extend(alloc, &[byte; 32]),
        Field::Variant(ordinal) => into.extend(alloc, &ordinal.to_be_bytes()),
        Field::Other(bytes) => into.extend(alloc, bytes),
    }
}

fn payload(alloc: Global, fields: &[Field]) -> Result<Bytes, NoMemory> {
    let mut bytes = Bytes::new(alloc);
    for field in fields {
        push_field(alloc, &mut bytes, *field)?;
    }
    Ok(bytes)
}

/// The id of the command at a place. Where none stands there, it is 32 times the place's number.
fn id_for(graph: &ListGraph, place: usize) -> Id {
    match id_at(graph, place) {
        Some(id) => id,
        None => Id::new([u8::try_from(place).unwrap_or(0); 32]),
    }
}

fn push_parent(
    alloc: Global,
    into: &mut Bytes,
    graph: &ListGraph,
    place: usize,
) -> Result<(), NoMemory> {
    into.extend(alloc, id_for(graph, place).as_slice())
}

fn push_content(alloc: Global, into: &mut Bytes, step: &Step) -> Result<(), NoMemory> {
    let Step(_, author, name, fields) = step;
    let payload = payload(alloc, fields)?;
    into.extend(alloc, &[*author; 32])?;
    into.extend(alloc, &u16::try_from(name.len()).unwrap_or(0).to_be_bytes())?;
    into.extend(alloc, name.as_bytes())?;
    into.extend(
        alloc,
        &u32::try_from(payload.len()).unwrap_or(0).to_be_bytes(),
    )?;
    into.extend(alloc, payload.as_slice())
}

/// The good tag of the body so far, or one of no bytes.
fn push_tag(alloc: Global, into: &mut Bytes, author: u8, good: bool) -> Result<(), NoMemory> {
    match TagEnvelope.seal(&Id::new([author; 32]), into.as_slice()) {
        Ok(tag) if good => {
            into.push(alloc, 32)?;
            into.extend(alloc, tag.as_slice())
        }
        _ => into.push(alloc, 0),
    }
}

/// A merge has the smaller id first.
fn merge_bytes(
    alloc: Global,
    graph: &ListGraph,
    one: usize,
    other: usize,
) -> Result<Bytes, NoMemory> {
    let mut bytes = Bytes::from_slice(alloc, &[1, 3])?;
    if id_for(graph, one) < id_for(graph, other) {
        push_parent(alloc, &mut bytes, graph, one)?;
        push_parent(alloc, &mut bytes, graph, other)?;
    } else {
        push_parent(alloc, &mut bytes, graph, other)?;
        push_parent(alloc, &mut bytes, graph, one)?;
    }
    Ok(bytes)
}

fn spelled(alloc: Global, graph: &ListGraph, step: &Step, good: bool) -> Result<Bytes, NoMemory> {
    let mut bytes = Bytes::new(alloc);
    match step.0 {
        Kind::Init => {
            bytes.extend(alloc, &[1, 0])?;
            bytes.extend(alloc, &DIGEST)?;
        }
        Kind::Basic(priority, parent) => {
            bytes.extend(alloc, &[1, 1])?;
            bytes.extend(alloc, &priority.to_be_bytes())?;
            push_parent(alloc, &mut bytes, graph, parent)?;
        }
        Kind::Finalize(parent) => {
            bytes.extend(alloc, &[1, 2])?;
            push_parent(alloc, &mut bytes, graph, parent)?;
        }
        Kind::Merge(one, other) => return merge_bytes(alloc, graph, one, other),
    }
    push_content(alloc, &mut bytes, step)?;
    push_tag(alloc, &mut bytes, step.1, good)?;
    Ok(bytes)
}

/// The command of a step behind what is held, with a good tag or another one, and None where its bytes are no command's.
pub fn command_of(
    alloc: Global,
    graph: &ListGraph,
    step: &Step,
    good: bool,
) -> Result<Option<Command>, NoMemory>
    ensures { IfOk result (λ found. IfSome found IsInForm) }
{
    let bytes = spelled(alloc, graph, step, good)?;
    from_bytes(alloc, bytes.as_slice())
}

/// The graph of the steps, and None where the bytes of one are no command's, or it may not stand there.
pub fn graph_of(alloc: Global, steps: &[Step]) -> Result<Option<ListGraph>, NoMemory> {
    let mut graph = ListGraph::empty(alloc)?;
    graph.reserve(alloc, steps.len())?;
    for step in steps {
        let Some(command) = command_of(alloc, &graph, step, true)? else {
            return Ok(None);
        };
        if !append(&mut graph, command) {
            return Ok(None);
        }
    }
    Ok(Some(graph))
}
