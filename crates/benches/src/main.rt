//! Calls that no command of the program reaches, made often: the scripts in `bench/` take the time. The first word says which call; without words each call
//! is made a few times.
#![tactic(auto)]

mod calls;
mod disk;
mod fact_calls;
mod facts;
mod graphs;
mod journals;
mod map;
mod responses;
mod sample;
mod scripts;
mod shares;
mod turns;

use crate::calls::{report_all, report_graph_words, report_two_words, report_words, usage};
use crate::turns::{Callers, asked, report, report_shares, run};
use std::{env, io};

fn main(rt: HostRuntime) -> io::Result<()> {
    let mut words = env::args(&rt)?;
    let _program = words.next();
    match (words.next(), words.next(), words.next(), words.next()) {
        (Some(call), Some(shape), Some(size), Some(rounds)) => {
            report_graph_words(&rt, &call, &shape, &size, &rounds)
        }
        (Some(call), Some(size), Some(rounds), None) => {
            if call.as_str() != "turns" {
                return report_words(&rt, &call, &size, &rounds);
            }
            let Some((callers, turns)) = asked(&size, &rounds) else {
                return usage(&rt);
            };
            let tally = run(&rt, rt.alloc(), callers, turns)?;
            report(&rt, &tally)?;
            report_shares(&rt, callers, &tally)
        }
        (Some(call), Some(word), None, None) => report_two_words(&rt, &call, &word),
        (Some(_), _, _, _) => usage(&rt),
        _ => {
            report_all(&rt)?;
            report(&rt, &run(&rt, rt.alloc(), Callers::One, 1000)?)?;
            report(&rt, &run(&rt, rt.alloc(), Callers::Four, 250)?)
        }
    }
}
