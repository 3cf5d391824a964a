// Calls of both fact bases, made often, and the same on a plain ordered map: `bench/facts` takes the time.
use crate::calls::usage;
use crate::{facts, map};
use base_bytes::NoMemory;
use fact_layers::LayeredFacts;
use fact_store::{FactBase, Facts};
use std::alloc::Global;
use std::io;

#[derive(Clone, Copy, Debug)]
enum Base {
    Facts,
    Layers,
    Map,
}

#[derive(Clone, Copy, Debug)]
enum Call {
    Query,
    Copy,
    Change,
    Chain,
}

fn base_of(word: &str) -> Option<Base> {
    match word {
        "facts" => Some(Base::Facts),
        "layers" => Some(Base::Layers),
        "map" => Some(Base::Map),
        _ => None,
    }
}

fn call_of(word: &str) -> Option<Call> {
    match word {
        "query" => Some(Call::Query),
        "copy" => Some(Call::Copy),
        "change" => Some(Call::Change),
        "chain" => Some(Call::Chain),
        _ => None,
    }
}

fn run_facts<F: FactBase>(
    alloc: Global,
    call: Call,
    rows: u32,
    rounds: u32,
) -> Result<u64, NoMemory> {
    match call {
        Call::Query => facts::query::<F>(alloc, rows, rounds),
        Call::Copy => facts::copy::<F>(alloc, rows, rounds),
        Call::Change => facts::change::<F>(alloc, rows, rounds),
        Call::Chain => facts::chain::<F>(alloc, rows, rounds),
    }
}

fn run_map(alloc: Global, call: Call, rows: u32, rounds: u32) -> Result<u64, NoMemory> {
    match call {
        Call::Query => map::query(alloc, rows, rounds),
        Call::Copy => map::copy(alloc, rows, rounds),
        Call::Change => map::change(alloc, rows, rounds),
        Call::Chain => map::chain(alloc, rows, rounds),
    }
}

/// Fills a base with so many rows and makes the call so many times; a sum of what it answered.
fn run(alloc: Global, base: Base, call: Call, rows: u32, rounds: u32) -> Result<u64, NoMemory> {
    match base {
        Base::Facts => run_facts::<Facts>(alloc, call, rows, rounds),
        Base::Layers => run_facts::<LayeredFacts>(alloc, call, rows, rounds),
        Base::Map => run_map(alloc, call, rows, rounds),
    }
}

fn out_of_memory(_error: NoMemory) -> io::Error {
    io::Error::from(io::ErrorKind::OutOfMemory)
}

fn report(rt: &HostRuntime, base: Base, call: Call, rows: u32, rounds: u32) -> io::Result<()> {
    let sum = run(rt.alloc(), base, call, rows, rounds).map_err(out_of_memory)?;
    println!(rt; "{base:?} {call:?}: {rows} rows, {rounds} rounds, sum {sum}")
}

/// The words of a call of a base of facts, of rows, and of rounds.
pub fn report_fact_words(
    rt: &HostRuntime,
    base: &str,
    call: &str,
    rows: &str,
    rounds: &str,
) -> io::Result<()> {
    let base = base_of(base);
    let call = call_of(call);
    let rows = rows.parse::<u32>().ok();
    let rounds = rounds.parse::<u32>().ok();
    match (base, call, rows, rounds) {
        (Some(base), Some(call), Some(rows), Some(rounds)) => report(rt, base, call, rows, rounds),
        _ => usage(rt),
    }
}

/// Each call of each base, a few times.
pub fn report_facts(rt: &HostRuntime) -> io::Result<()> {
    for base in [Base::Facts, Base::Layers, Base::Map] {
        for call in [Call::Query, Call::Copy, Call::Change, Call::Chain] {
            report(rt, base, call, 300, 20)?;
        }
    }
    Ok(())
}
