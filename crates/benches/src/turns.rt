// Callers that take turns at a lock, often: `bench/turns` takes the time.
ghost use denote.Param.Send.{IsSync};

use crate::shares::share_of;
use samples::callers::{Work, four, make_turns};
use samples::tally::Tally;
use std::alloc::Global;
use std::io;
use std::sync::Wait;
use std::thread::Threads;
use turn_lock::{NoMemory, TurnLock};

#[derive(Clone, Copy)]
pub enum Callers {
    One,
    Four,
}

fn callers_of(word: &str) -> Option<Callers> {
    match word {
        "1" => Some(Callers::One),
        "4" => Some(Callers::Four),
        _ => None,
    }
}

fn numbers_of(callers: Callers) -> u32 {
    match callers {
        Callers::One => 1,
        Callers::Four => 4,
    }
}

fn one<R: Wait + Sync>(rt: &R, alloc: Global, each: Work) -> Result<Tally, NoMemory> {
    let (lock, pass) = TurnLock::new(rt, alloc, Tally::new(alloc, 0))?;
    let pass = make_turns(rt, &lock, pass, each);
    Ok(lock.close(rt, pass))
}

fn out_of_memory(_error: NoMemory) -> io::Error {
    io::Error::from(io::ErrorKind::OutOfMemory)
}

pub fn run<R: Threads + Wait + Sync>(
    rt: &R,
    alloc: Global,
    callers: Callers,
    turns: u32,
) -> io::Result<Tally>
    requires { IsSync R.row }
{
    let each = Work { turns, round: 0 };
    let tally = match callers {
        Callers::One => one(rt, alloc, each),
        Callers::Four => four(rt, alloc, 0, each),
    };
    tally.map_err(out_of_memory)
}

/// How many turns stand in the list, and the counter behind them.
pub fn report(rt: &HostRuntime, tally: &Tally) -> io::Result<()> {
    println!(rt; "{} turns, counter {}", tally.turns().len(), tally.count())
}

/// For each caller its turns, and the most turns of others between two of its own.
pub fn report_shares(rt: &HostRuntime, callers: Callers, tally: &Tally) -> io::Result<()> {
    for number in 0..numbers_of(callers) {
        let share = share_of(tally.turns(), number);
        println!(rt;
            "caller {number}: {} turns, at most {} of others between two",
            share.turns, share.between
        )?;
    }
    Ok(())
}

/// How many callers the words ask for, and how many turns of each.
pub fn asked(callers: &str, turns: &str) -> Option<(Callers, u32)> {
    match (callers_of(callers), turns.parse::<u32>().ok()) {
        (Some(callers), Some(turns)) => Some((callers, turns)),
        _ => None,
    }
}
