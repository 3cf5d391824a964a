// Calls of several replicas one after another, with the messages that they make.
use crate::parties::Party;
use crate::said::{Said, published, refused, taken};
use base_bytes::{Arg, Bytes, NoMemory, Steps, Text};
use command::Graph;
use outside::{Envelope, author_of};
use replica::Refusal;
use std::alloc::Global;
use std::sync::ledger::Ledger;

/// An argument of an action.
#[derive(Clone, Copy)]
pub enum Value {
    Int(i64),
    Str(&'static str),
    /// The author id of the replica of this name.
    Author(&'static str),
    /// A variant of the enum Role.
    Role(&'static str),
}

/// A call of a replica. Messages go by their numbers, from 1.
#[derive(Clone, Copy)]
pub enum Call {
    Init(&'static str, &'static [Value]),
    /// So many times.
    Act(usize, &'static str, &'static [Value]),
    /// In the graph of the replica at a place.
    Join(usize),
    Ask,
    Answer(usize),
    Take(usize),
    Next(usize),
    Restart,
    /// No call: these bytes are a message.
    Made(&'static [u8]),
}

/// The place of the replica that is called, the call, what it says, and how many commands the replica holds then.
pub struct Line(pub usize, pub Call, pub Said, pub usize);

fn argument(alloc: Global, value: Value) -> Result<Arg, NoMemory> {
    match value {
        Value::Int(number) => Ok(Arg::Int(number)),
        Value::Str(text) => Ok(Arg::Str(Text::from_slice(alloc, text)?)),
        Value::Author(name) => Ok(Arg::Ident(author_of(&Text::from_slice(alloc, name)?))),
        Value::Role(name) => {
            let role = Text::from_slice(alloc, "Role")?;
            Ok(Arg::Variant(role, Text::from_slice(alloc, name)?))
        }
    }
}

fn arguments(alloc: Global, values: &[Value]) -> Result<Vec<Arg>, NoMemory> {
    let mut all = Vec::new(alloc);
    for value in values {
        all.push(argument(alloc, *value)?)?;
    }
    Ok(all)
}

/// Runs an action, the first of a graph or a later one.
pub fn act<E: Envelope, L: Ledger>(
    alloc: Global,
    party: &mut Party,
    first: bool,
    action: &str,
    values: &[Value],
    env: &mut E,
    steps: &mut Steps<L>,
) -> Result<Said, NoMemory> {
    let action = Text::from_slice(alloc, action)?;
    let args = arguments(alloc, values)?;
    if first {
        return Ok(published(party.init(alloc, &action, args.as_slice(), env, steps)));
    }
    Ok(published(party.act(alloc, &action, args.as_slice(), env, steps)))
}

fn act_often<E: Envelope, L: Ledger>(
    alloc: Global,
    party: &mut Party,
    times: usize,
    action: &str,
    values: &[Value],
    env: &mut E,
    steps: &mut Steps<L>,
) -> Result<Said, NoMemory> {
    let mut said = Said::Done;
    for _ in 0..times {
        said = act(alloc, party, false, action, values, env, steps)?;
    }
    Ok(said)
}

/// Keeps a message behind the others.
fn keep(messages: &mut Vec<Bytes>, made: Result<Bytes, Refusal>) -> Result<Said, NoMemory> {
    match made {
        Ok(bytes) => {
            messages.push(bytes)?;
            Ok(Said::Message)
        }
        Err(refusal) => Ok(refused(&refusal)),
    }
}

fn keep_next(
    messages: &mut Vec<Bytes>,
    made: Result<Option<Bytes>, Refusal>,
) -> Result<Said, NoMemory> {
    match made {
        Ok(Some(bytes)) => keep(messages, Ok(bytes)),
        Ok(None) => Ok(Said::Done),
        Err(refusal) => Ok(refused(&refusal)),
    }
}

/// A copy of the message of this number, from 1; of no bytes where there is none.
fn message(alloc: Global, messages: &[Bytes], number: usize) -> Result<Bytes, NoMemory> {
    if number == 0 || number > messages.len() {
        return Ok(Bytes::new(alloc));
    }
    messages[number - 1].copy(alloc)
}

fn join(alloc: Global, parties: &mut [Party], who: usize, whose: usize) -> Said {
    if who >= parties.len() || whose >= parties.len() {
        return Said::Refused("nobody");
    }
    let Some(graph) = parties[whose].state().graph_id() else {
        return Said::Refused("nothing to join");
    };
    match parties[who].join(alloc, &graph) {
        Ok(()) => Said::Joined,
        Err(refusal) => refused(&refusal),
    }
}

fn restart<E: Envelope>(alloc: Global, party: &mut Party, env: &E) -> Said {
    match party.restart(alloc, env) {
        Ok(count) => Said::Holds(count),
        Err(refusal) => refused(&refusal),
    }
}

fn call_one<E: Envelope, L: Ledger>(
    alloc: Global,
    party: &mut Party,
    messages: &mut Vec<Bytes>,
    call: Call,
    env: &mut E,
    steps: &mut Steps<L>,
) -> Result<Said, NoMemory> {
    match call {
        Call::Init(action, values) => act(alloc, party, true, action, values, env, steps),
        Call::Act(times, action, values) => {
            act_often(alloc, party, times, action, values, env, steps)
        }
        Call::Join(_) => Ok(Said::Done),
        Call::Ask => keep(messages, party.ask(alloc)),
        Call::Answer(number) => {
            let request = message(alloc, messages.as_slice(), number)?;
            keep(messages, party.answer(alloc, request.as_slice()))
        }
        Call::Take(number) => {
            let response = message(alloc, messages.as_slice(), number)?;
            Ok(taken(party.take(alloc, response.as_slice(), env, steps)))
        }
        Call::Next(number) => {
            let response = message(alloc, messages.as_slice(), number)?;
            keep_next(messages, party.next(alloc, response.as_slice()))
        }
        Call::Restart => Ok(restart(alloc, party, env)),
        Call::Made(bytes) => {
            let bytes = Bytes::from_slice(alloc, bytes)?;
            keep(messages, Ok(bytes))
        }
    }
}

fn make_call<E: Envelope, L: Ledger>(
    alloc: Global,
    parties: &mut [Party],
    messages: &mut Vec<Bytes>,
    line: &Line,
    env: &mut E,
    steps: &mut Steps<L>,
) -> Result<Said, NoMemory> {
    if let Call::Join(whose) = line.1 {
        return Ok(join(alloc, parties, line.0, whose));
    }
    if line.0 >= parties.len() {
        return Ok(Said::Refused("nobody"));
    }
    call_one(alloc, &mut parties[line.0], messages, line.1, env, steps)
}

fn held(parties: &[Party], who: usize) -> usize {
    match parties.get(who) {
        Some(party) => party.state().graph().len(),
        None => 0,
    }
}

/// How many of the lines say and leave what is written, up to the first that doesn't.
pub fn lines_met<E: Envelope, L: Ledger>(
    alloc: Global,
    parties: &mut [Party],
    lines: &[Line],
    env: &mut E,
    steps: &mut Steps<L>,
) -> Result<usize, NoMemory> {
    let mut messages = Vec::new(alloc);
    let mut met = 0usize;
    for line in lines {
        let said = make_call(alloc, parties, &mut messages, line, env, steps)?;
        if said != line.2 || held(parties, line.0) != line.3 {
            return Ok(met);
        }
        met = met.saturating_add(1);
    }
    Ok(met)
}
