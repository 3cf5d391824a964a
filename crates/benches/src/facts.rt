ghost use Rattle.std.specs.Prelude.{IfOk, IsTrue};
ghost use Rattle.fact_store.specs.Rows.{are_keys};

use crate::sample::{Change, change_of, group, number};
use base_bytes::{NoMemory, Value, Values};
use fact_store::{FactBase, Row, Wanted, WriteFault};
use sqlite_items::Items;
use std::alloc::Global;

fn one(alloc: Global, number: i64) -> Result<Values, NoMemory>
    ensures { IfOk result (λ values. IsTrue (are_keys values)) }
{
    let mut values = Items::new(alloc);
    values.push(Value::Int(number))?;
    Ok(values)
}

fn two(alloc: Global, first: i64, second: i64) -> Result<Values, NoMemory>
    ensures { IfOk result (λ values. IsTrue (are_keys values)) }
{
    let mut values = Items::new(alloc);
    values.push(Value::Int(first))?;
    values.push(Value::Int(second))?;
    Ok(values)
}

fn create<F: FactBase>(alloc: Global, facts: &mut F, turn: u32) -> Result<(), WriteFault> {
    let row = Row {
        fact: 0,
        keys: two(alloc, group(turn), number(turn))?,
        values: one(alloc, i64::from(turn))?,
    };
    facts.create(alloc, row)
}

fn filled<F: FactBase>(alloc: Global, rows: u32) -> Result<F, NoMemory> {
    let mut facts = F::empty(alloc);
    for turn in 0..rows {
        create(alloc, &mut facts, turn).map_err(|_| NoMemory)?;
    }
    Ok(facts)
}

/// The first row of the group of this turn, by its one value.
fn first<F: FactBase>(alloc: Global, facts: &F, turn: u32) -> Result<u64, NoMemory> {
    let wanted = Wanted {
        fact: 0,
        keys: one(alloc, group(turn))?,
        values: Items::new(alloc),
    };
    let Some(row) = facts.first(alloc, &wanted)? else {
        return Ok(0);
    };
    match row.values.as_slice() {
        [Value::Int(number), ..] => Ok(number.unsigned_abs()),
        _ => Ok(0),
    }
}

/// Rows in no order, and then queries by a prefix of the keys, each for the first row.
pub fn query<F: FactBase>(alloc: Global, rows: u32, rounds: u32) -> Result<u64, NoMemory> {
    let facts: F = filled(alloc, rows)?;
    let mut sum = 0u64;
    for turn in 0..rounds {
        sum = sum.wrapping_add(first(alloc, &facts, turn)?);
    }
    Ok(sum)
}

/// Rows in no order, and then copies of the base, of each of which the rows of a group are counted.
pub fn copy<F: FactBase>(alloc: Global, rows: u32, rounds: u32) -> Result<u64, NoMemory> {
    let facts: F = filled(alloc, rows)?;
    let mut sum = 0u64;
    for turn in 0..rounds {
        let copy = facts.copy(alloc)?;
        sum = sum.wrapping_add(first(alloc, &copy, turn)?);
    }
    Ok(sum)
}

fn update<F: FactBase>(alloc: Global, facts: &mut F, row: u32) -> Result<(), WriteFault> {
    let place = Wanted {
        fact: 0,
        keys: two(alloc, group(row), number(row))?,
        values: Items::new(alloc),
    };
    facts.update(alloc, &place, one(alloc, i64::from(row))?)
}

fn delete<F: FactBase>(alloc: Global, facts: &mut F, row: u32) -> Result<(), WriteFault> {
    let keys = two(alloc, group(row), number(row))?;
    facts.delete(alloc, 0, &keys)
}

/// The change of this turn: a row gets new values, is deleted, or is created again.
fn changed<F: FactBase>(alloc: Global, facts: &mut F, change: Change) -> Result<(), WriteFault> {
    match change {
        Change::Update(row) => update(alloc, facts, row),
        Change::Delete(row) => delete(alloc, facts, row),
        Change::Create(row) => create(alloc, facts, row),
    }
}

/// Rows in no order, and then updates, deletes and creates; how many of them came through.
pub fn change<F: FactBase>(alloc: Global, rows: u32, rounds: u32) -> Result<u64, NoMemory> {
    let mut facts: F = filled(alloc, rows)?;
    let mut sum = 0u64;
    for turn in 0..rounds {
        if changed(alloc, &mut facts, change_of(turn, rows)).is_ok() {
            sum = sum.wrapping_add(1);
        }
    }
    Ok(sum)
}

/// A copy with one more row.
fn grown<F: FactBase>(alloc: Global, facts: &F, turn: u32) -> Result<F, NoMemory> {
    let mut copy = facts.copy(alloc)?;
    create(alloc, &mut copy, turn).map_err(|_| NoMemory)?;
    Ok(copy)
}

/// Rows in no order, and then copies, each with one more row than the last, which it takes the place of; a row at the end.
pub fn chain<F: FactBase>(alloc: Global, rows: u32, rounds: u32) -> Result<u64, NoMemory> {
    let mut facts: F = filled(alloc, rows)?;
    for turn in 0..rounds {
        facts = grown(alloc, &facts, rows.wrapping_add(turn))?;
    }
    first(alloc, &facts, rows)
}
