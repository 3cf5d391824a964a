ghost use Rattle.std.specs.Prelude.{◌≡◌, ℕ, true, IfOk, MatchResult};
ghost use denote.Param.Send.{IsSync};
ghost use Rattle.turn_lock.specs.Callers.{IsAtRest, numbers};
ghost use Rattle.turn_lock.specs.Turns.{Adds, Continues};
ghost use Rattle.samples.specs.Tallies.{is_legal, turn};

use crate::tally::Tally;
use std::alloc::Global;
use std::sync::Wait;
use std::thread::{Threads, join};
use turn_lock::{Kept, NoMemory, Pass, TurnLock};

/// Adds an amount as one turn; a call without memory is an idle turn.
#[tactic(auto, using(crate::proofs::Ready::adds_of))]
pub fn add<R: Wait + Sync>(
    rt: &R,
    lock: &TurnLock<Tally>,
    pass: &mut Pass<Tally>,
    amount: u64,
) -> Result<u64, NoMemory>
    requires { IsAtRest lock.now pass.old }
    ensures rest { IsAtRest lock.now pass.new }
    ensures numbers { numbers pass.new ≡ numbers pass.old }
    ensures made { MatchResult result (λ reply. (idle : ℕ) × Adds (λ t. t.caller) (numbers pass.old) pass.old.seen pass.new.seen (turn pass.old.number idle amount reply)) (λ _. Continues (λ t. t.caller) (numbers pass.old) pass.old.seen pass.new.seen) }
    ensures legal { is_legal lock.now.opening pass.new.seen ≡ true }
{
    let mut value = lock.enter(rt, pass);
    let reply = value.add(pass.number(), amount);
    value.is_legal();
    lock.leave(rt, pass, value);
    reply
}

/// An idle turn.
pub fn pause<R: Wait + Sync>(rt: &R, lock: &TurnLock<Tally>, pass: &mut Pass<Tally>)
    requires { IsAtRest lock.now pass.old }
    ensures rest { IsAtRest lock.now pass.new }
    ensures numbers { numbers pass.new ≡ numbers pass.old }
    ensures seen { Continues (λ t. t.caller) (numbers pass.old) pass.old.seen pass.new.seen }
{
    let mut value = lock.enter(rt, pass);
    value.pause();
    lock.leave(rt, pass, value);
}

/// Splits a pass off, makes a turn with it and takes it in again.
pub fn add_by_another<R: Wait + Sync>(
    rt: &R,
    lock: &TurnLock<Tally>,
    pass: &mut Pass<Tally>,
    amount: u64,
) -> Result<u64, NoMemory>
    requires { IsAtRest lock.now pass.old }
    ensures rest { IsAtRest lock.now pass.new }
    ensures number { pass.new.number ≡ pass.old.number }
{
    let mut other = lock.split(rt, pass);
    let reply = add(rt, lock, &mut other, amount);
    lock.meet(pass, other);
    reply
}

/// What one caller does: so many turns, each with the amount 1. In each round of `rounds` it makes one of them by a pass of its own, and an idle turn.
#[derive(Clone, Copy)]
pub struct Work {
    pub turns: u32,
    pub round: u32,
}

/// Makes the turns of one caller. It stops where memory runs out.
pub fn make_turns<R: Wait + Sync>(
    rt: &R,
    lock: &TurnLock<Tally>,
    pass: Pass<Tally>,
    each: Work,
) -> Pass<Tally>
    requires { IsAtRest lock.now pass }
    ensures { IsAtRest lock.now result }
{
    let mut pass = pass;
    for at in 0..each.turns {
        if each.round > 0 && at % each.round == 0 {
            pause(rt, lock, &mut pass);
            if add_by_another(rt, lock, &mut pass, 1).is_err() {
                return pass;
            }
        } else if add(rt, lock, &mut pass, 1).is_err() {
            return pass;
        }
    }
    pass
}

/// Two callers beside each other, whose passes meet.
fn two<R: Threads + Wait + Sync>(
    rt: &R,
    lock: &TurnLock<Tally>,
    pass: Pass<Tally>,
    each: Work,
) -> Pass<Tally>
    requires sync { IsSync R.row }
    requires pass { IsAtRest lock.now pass }
    ensures { IsAtRest lock.now result }
{
    let mut one = pass;
    let other = lock.split(rt, &mut one);
    let (mut one, other) = join(
        rt,
        || -> Pass<Tally>
            requires { IsAtRest lock.now one }
            ensures { IsAtRest lock.entry.now result }
        { make_turns(rt, lock, one, each) },
        || -> Pass<Tally>
            requires { IsAtRest lock.now other }
            ensures { IsAtRest lock.entry.now result }
        { make_turns(rt, lock, other, each) },
    );
    lock.meet(&mut one, other);
    one
}

/// Four callers beside each other, whose passes meet: the counter after all of their turns.
pub fn four<R: Threads + Wait + Sync>(
    rt: &R,
    alloc: Global,
    start: u64,
    each: Work,
) -> Result<Tally, NoMemory>
    requires sync { IsSync R.row }
    ensures legal { IfOk result (λ tally. is_legal start tally.turns.items ≡ true) }
{
    let (lock, mut one) = TurnLock::new(rt, alloc, Tally::new(alloc, start))?;
    let other = lock.split(rt, &mut one);
    let lock_there = &lock;
    let (mut one, other) = join(
        rt,
        || -> Pass<Tally>
            requires { IsAtRest lock_there.now one × IsSync R.row }
            ensures { IsAtRest lock_there.entry.now result }
        { two(rt, lock_there, one, each) },
        || -> Pass<Tally>
            requires { IsAtRest lock_there.now other × IsSync R.row }
            ensures { IsAtRest lock_there.entry.now result }
        { two(rt, lock_there, other, each) },
    );
    lock.meet(&mut one, other);
    let tally = lock.close(rt, one);
    tally.is_legal();
    Ok(tally)
}
