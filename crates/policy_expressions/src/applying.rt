//! What writes make of the facts.

ghost use Rattle.std.specs.Prelude.{◌≡◌, ◌≤◌, List, OnErr};
ghost use Rattle.fact_store.specs.Writes.{Outcome, Writes};
ghost use Rattle.fact_store.specs.declared.row.Row.{Row};
ghost use Rattle.policy_meaning.specs.Finish.{Change as Meant};
ghost use Rattle.policy_expressions.specs.Applying.{Applies, AppliesAll, AppliesWrite, Stays, write_count};

use crate::change::{Change, Changes, Listed};
use crate::stop::{Answer, Stop};
use fact_store::{FactBase, WriteFault};
use policy_meaning::{Effects, FaultKind};
use std::alloc::Global;

/// A write that isn't possible is a fault.
fn written(found: Result<(), WriteFault>) -> Answer<()>
    ensures { (outcome : Outcome) (old new : List Row) → Writes outcome old found new → AppliesWrite result outcome old new }
{
    match found {
        Ok(()) => Ok(()),
        Err(WriteFault::Exists) => Err(Stop::Fault(FaultKind::Exists)),
        Err(WriteFault::Missing) => Err(Stop::Fault(FaultKind::Missing)),
        Err(WriteFault::Differs) => Err(Stop::Fault(FaultKind::Differs)),
        Err(WriteFault::NoMemory) => Err(Stop::NoMemory),
    }
}

/// Makes one change. A write that isn't possible is a fault; the facts and the effects are then as they were.
pub fn apply<F: FactBase>(
    alloc: Global,
    change: Change,
    facts: &mut F,
    effects: &mut Effects,
) -> Answer<()>
    ensures applies { (more : List Meant) → Applies result change (F.rows facts.old) (F.rows facts.new) effects.old effects.new more }
    ensures rows { OnErr result (F.rows facts.new ≡ F.rows facts.old) }
    ensures effects { OnErr result (effects.new ≡ effects.old) }
{
    match change.into_listed() {
        Listed::Create(row) => written(facts.create(alloc, row)),
        Listed::Update(old, values) => written(facts.update(alloc, &old, values)),
        Listed::Delete(fact, keys) => written(facts.delete(alloc, fact, &keys)),
        Listed::Emit(effect) => Ok(effects.push(alloc, effect)?),
    }
}

/// Makes all changes in order, and answers the effects. After any other answer the facts are open.
pub fn apply_all<F: FactBase>(alloc: Global, changes: Changes, facts: &mut F) -> Answer<Effects>
    ensures { AppliesAll result changes (F.rows facts.old) (F.rows facts.new) }
{
    let mut effects = Effects::new(alloc);
    for change in changes.into_vec() {
        apply(alloc, change, facts, &mut effects)?;
    }
    Ok(effects)
}

/// How many of the changes are writes.
fn write_count(changes: &[Change]) -> usize
    ensures { result ≡ write_count changes.now }
{
    let mut count = 0;
    for change in changes {
        count += change.writes();
    }
    count
}

/// Makes changes of which at most one is a write. Where one ends the block, nothing was written.
fn apply_few<F: FactBase>(alloc: Global, changes: Changes, facts: &mut F) -> Answer<Effects>
    requires few { write_count changes ≤ 1 }
    ensures ends { AppliesAll result changes (F.rows facts.old) (F.rows facts.new) }
    ensures rows { Stays result (F.rows facts.old) (F.rows facts.new) }
{
    let mut effects = Effects::new(alloc);
    for change in changes.into_vec() {
        apply(alloc, change, facts, &mut effects)?;
    }
    Ok(effects)
}

/// Makes changes on a copy, which takes the place of the facts once all are made.
fn apply_many<F: FactBase>(alloc: Global, changes: Changes, facts: &mut F) -> Answer<Effects>
    ensures ends { AppliesAll result changes (F.rows facts.old) (F.rows facts.new) }
    ensures rows { OnErr result (F.rows facts.new ≡ F.rows facts.old) }
{
    let mut changed = facts.copy(alloc)?;
    let effects = apply_all(alloc, changes, &mut changed)?;
    *facts = changed;
    Ok(effects)
}

/// Makes all changes in order, and answers the effects. Where one of them ends the block, the facts are as they were; without memory they are open.
/// The facts are copied where there are two or more writes.
pub fn apply_or_leave<F: FactBase>(
    alloc: Global,
    changes: Changes,
    facts: &mut F,
) -> Answer<Effects>
    ensures ends { AppliesAll result changes (F.rows facts.old) (F.rows facts.new) }
    ensures rows { Stays result (F.rows facts.old) (F.rows facts.new) }
{
    if write_count(changes.as_slice()) <= 1 {
        apply_few(alloc, changes, facts)
    } else {
        apply_many(alloc, changes, facts)
    }
}
