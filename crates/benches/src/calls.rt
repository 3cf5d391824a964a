// The words of the program, and what each is asked for.
use crate::disk::write_at_end;
use crate::fact_calls::{report_fact_words, report_facts};
use crate::graphs::{Ask, Shape, run as run_graph};
use crate::journals::{keep_at, open_at, scan_at};
use crate::responses::{Call, Size, run};
use crate::scripts::{SAMPLE, report_script};
use base_bytes::NoMemory;
use std::{fs, io};

fn call_of(word: &str) -> Option<Call> {
    match word {
        "read" => Some(Call::Read),
        "copy" => Some(Call::Copy),
        _ => None,
    }
}

fn size_of(word: &str) -> Option<Size> {
    match word {
        "4096" => Some(Size::Large),
        "100" => Some(Size::Small),
        _ => None,
    }
}

fn rounds_of(word: &str) -> Option<u32> {
    word.parse::<u32>().ok()
}

fn call_word(call: Call) -> &'static str {
    match call {
        Call::Read => "read",
        Call::Copy => "copy",
    }
}

fn size_word(size: Size) -> &'static str {
    match size {
        Size::Large => "4096",
        Size::Small => "100",
    }
}

fn ask_of(word: &str) -> Option<Ask> {
    match word {
        "braid" => Some(Ask::Braid),
        "ancestor" => Some(Ask::Ancestor),
        _ => None,
    }
}

fn shape_of(word: &str) -> Option<Shape> {
    match word {
        "strands" => Some(Shape::Strands),
        "chain" => Some(Shape::Chain),
        "diamonds" => Some(Shape::Diamonds),
        "writers" => Some(Shape::Writers),
        _ => None,
    }
}

fn ask_word(ask: Ask) -> &'static str {
    match ask {
        Ask::Braid => "braid",
        Ask::Ancestor => "ancestor",
    }
}

fn shape_word(shape: Shape) -> &'static str {
    match shape {
        Shape::Strands => "strands",
        Shape::Chain => "chain",
        Shape::Diamonds => "diamonds",
        Shape::Writers => "writers",
    }
}

fn out_of_memory(_error: NoMemory) -> io::Error {
    io::Error::from(io::ErrorKind::OutOfMemory)
}

fn report(rt: &HostRuntime, call: Call, size: Size, rounds: u32) -> io::Result<()> {
    let done = run(rt.alloc(), call, size, rounds).map_err(out_of_memory)?;
    let call = call_word(call);
    let size = size_word(size);
    println!(rt;
        "{call} {size}: {} bytes, {rounds} rounds, sum {}",
        done.bytes, done.sum
    )
}

fn report_graph(
    rt: &HostRuntime,
    ask: Ask,
    shape: Shape,
    size: usize,
    rounds: u32,
) -> io::Result<()> {
    let found = run_graph(rt.alloc(), ask, shape, size, rounds).map_err(out_of_memory)?;
    let ask = ask_word(ask);
    let shape = shape_word(shape);
    println!(rt; "{ask} {shape} {size}: {rounds} rounds, {found} found")
}

fn report_disk(rt: &HostRuntime, rounds: u32) -> io::Result<()> {
    let length = write_at_end(rt.alloc(), rounds).map_err(out_of_memory)?;
    println!(rt; "write: {rounds} rounds, {length} bytes")
}

pub fn usage(rt: &HostRuntime) -> io::Result<()> {
    println!(rt;
        "usage: benches read|copy 4096|100 ROUNDS, or benches braid|ancestor strands|chain|diamonds|writers SIZE ROUNDS, or benches write ROUNDS, or benches open|scan|keep|script FILE, or benches turns 1|4 TURNS, or benches facts|layers|map query|copy|change|chain ROWS ROUNDS"
    )
}

pub fn report_words(rt: &HostRuntime, call: &str, size: &str, rounds: &str) -> io::Result<()> {
    match (call_of(call), size_of(size), rounds_of(rounds)) {
        (Some(call), Some(size), Some(rounds)) => report(rt, call, size, rounds),
        _ => usage(rt),
    }
}

pub fn report_graph_words(
    rt: &HostRuntime,
    ask: &str,
    shape: &str,
    size: &str,
    rounds: &str,
) -> io::Result<()> {
    match (
        ask_of(ask),
        shape_of(shape),
        size.parse::<usize>().ok(),
        rounds_of(rounds),
    ) {
        (Some(ask), Some(shape), Some(size), Some(rounds)) => {
            report_graph(rt, ask, shape, size, rounds)
        }
        _ => report_fact_words(rt, ask, shape, size, rounds),
    }
}

fn report_open(rt: &HostRuntime, path: &str) -> io::Result<()> {
    let held = open_at(rt, path)?;
    println!(rt;
        "open: {} commits, {} commands",
        held.commits, held.commands
    )
}

fn report_scan(rt: &HostRuntime, path: &str) -> io::Result<()> {
    let bytes = scan_at(rt, path)?;
    println!(rt; "scan: {bytes} bytes")
}

fn report_keep(rt: &HostRuntime, path: &str) -> io::Result<()> {
    let pieces = keep_at(rt, path)?;
    println!(rt; "keep: {pieces} pieces")
}

// A journal in a file of its own, begun and opened again.
fn report_journal(rt: &HostRuntime) -> io::Result<()> {
    let path = "benches_journal.bin";
    report_open(rt, path)?;
    report_open(rt, path)?;
    report_scan(rt, path)?;
    report_keep(rt, path)?;
    fs::remove_file(rt, path)
}

pub fn report_two_words(rt: &HostRuntime, call: &str, word: &str) -> io::Result<()> {
    match (call, rounds_of(word)) {
        ("write", Some(rounds)) => report_disk(rt, rounds),
        ("open", _) => report_open(rt, word),
        ("scan", _) => report_scan(rt, word),
        ("keep", _) => report_keep(rt, word),
        ("script", _) => report_script(rt, fs::read(rt, word)?.as_slice()),
        _ => usage(rt),
    }
}

pub fn report_all(rt: &HostRuntime) -> io::Result<()> {
    for call in [Call::Read, Call::Copy] {
        report(rt, call, Size::Large, 3)?;
        report(rt, call, Size::Small, 3)?;
    }
    for shape in [
        Shape::Strands,
        Shape::Chain,
        Shape::Diamonds,
        Shape::Writers,
    ] {
        report_graph(rt, Ask::Braid, shape, 20, 3)?;
        report_graph(rt, Ask::Ancestor, shape, 20, 3)?;
    }
    report_disk(rt, 3)?;
    report_journal(rt)?;
    report_facts(rt)?;
    report_script(rt, SAMPLE.as_bytes())
}
