use samples::callers::{Work, add, add_by_another, four, pause};
use samples::tally::Tally;
use samples::turn::Turn;
use std::process::Abort;
use std::sync::Wait;
use std::test::*;
use turn_lock::TurnLock;

/// The counter that one thread comes to by these turns, if each reply is the counter at its place.
fn replayed(start: u64, turns: &[Turn]) -> Option<u64> {
    let mut count = start;
    for turn in turns {
        count = count.wrapping_add(turn.amount);
        if turn.reply != count {
            return None;
        }
    }
    Some(count)
}

/// How many of the turns have this number.
fn turns_by(turns: &[Turn], number: u32) -> u32 {
    let mut found = 0u32;
    for turn in turns {
        if turn.caller == number {
            found = found.saturating_add(1);
        }
    }
    found
}

/// How many of the numbers below `numbers` have made so many turns.
fn numbers_with(turns: &[Turn], numbers: u32, made: u32) -> u32 {
    let mut found = 0u32;
    for number in 0..numbers {
        if turns_by(turns, number) == made {
            found = found.saturating_add(1);
        }
    }
    found
}

/// Four callers make their turns: the list has them all, and its replay is the counter.
fn all_turns_stand<R: Abort>(rt: &R, tally: &Tally, start: u64, number: usize) {
    let turns = tally.turns();
    assert!(rt; turns.len() == number);
    assert!(rt; replayed(start, turns) == Some(tally.count()));
}

#[test]
fn four_callers_make_each_turn_once(rt: HostRuntime) -> Result<(), Fail> {
    let each = Work {
        turns: 1000,
        round: 0,
    };
    let tally = four(&rt, rt.alloc(), 5, each)?;
    all_turns_stand(&rt, &tally, 5, 4000);
    assert!(rt; numbers_with(tally.turns(), 4, 1000) == 4);
    Ok(())
}

#[test]
fn passes_split_and_meet_among_the_turns(rt: HostRuntime) -> Result<(), Fail> {
    let each = Work {
        turns: 1000,
        round: 100,
    };
    let tally = four(&rt, rt.alloc(), u64::MAX, each)?;
    all_turns_stand(&rt, &tally, u64::MAX, 4000);
    assert!(rt; numbers_with(tally.turns(), 44, 990) == 4);
    assert!(rt; numbers_with(tally.turns(), 44, 1) == 40);
    Ok(())
}

#[test]
fn short_runs_end(rt: HostRuntime) -> Result<(), Fail> {
    for turns in 0..200u32 {
        let each = Work {
            turns: turns % 5,
            round: turns % 3,
        };
        let tally = four(&rt, rt.alloc(), 0, each)?;
        all_turns_stand(&rt, &tally, 0, 4 * (turns % 5) as usize);
    }
    Ok(())
}

#[test]
fn idle_turns_are_counted_before_the_next(rt: HostRuntime) -> Result<(), Fail> {
    let (lock, mut one) = TurnLock::new(&rt, rt.alloc(), Tally::new(rt.alloc(), 10))?;
    let mut other = lock.split(&rt, &mut one);
    assert!(rt; one.number() == 0 && other.number() == 1);
    pause(&rt, &lock, &mut one);
    pause(&rt, &lock, &mut other);
    assert!(rt; add(&rt, &lock, &mut other, 3) == Ok(13));
    assert!(rt; add_by_another(&rt, &lock, &mut one, 4) == Ok(17));
    pause(&rt, &lock, &mut one);
    lock.meet(&mut other, one);
    assert!(rt; other.number() == 1);
    let tally = lock.close(&rt, other);
    all_turns_stand(&rt, &tally, 10, 2);
    let idle = tally.turns().iter().map(|turn| turn.idle);
    assert!(rt; idle.eq([2, 0]));
    Ok(())
}
