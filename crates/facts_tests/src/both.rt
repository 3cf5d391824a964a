ghost use Rattle.std.specs.Prelude.{IfOk, IsTrue};
ghost use Rattle.fact_store.specs.Rows.{are_keys};

use base_bytes::{NoMemory, Value, Values, are_same_values, copy_values};
use fact_layers::LayeredFacts;
use fact_store::{FactBase, Facts, Row, Wanted};
use sqlite_items::Items;
use std::alloc::Global;
use std::mem;
use std::process::Abort;
use std::test::*;

/// How many writes and queries are made.
const TURNS: u32 = 10_000;

/// How many bases of each kind there are, each a copy of the one that was written last.
const KEPT: usize = 5;

/// Numbers in no order, the same in each run.
#[derive(Drop)]
struct Numbers {
    last: u32,
}

impl Numbers {
    fn below(&mut self, limit: u32) -> u32 {
        self.last = self
            .last
            .wrapping_mul(1_664_525)
            .wrapping_add(1_013_904_223);
        (self.last >> 8) % limit.max(1)
    }
}

/// One of few places or prefixes, so that most are met again.
fn some_keys(alloc: Global, numbers: &mut Numbers, most: u32) -> Result<Values, NoMemory>
    ensures { IfOk result (λ values. IsTrue (are_keys values)) }
{
    let count = numbers.below(most.saturating_add(1));
    let mut values = Items::new(alloc);
    'keys: for _ in 0..count {
        values.push(Value::Int(i64::from(numbers.below(6))))?;
    }
    Ok(values)
}

fn some_value(alloc: Global, numbers: &mut Numbers) -> Result<Values, NoMemory> {
    let mut values = Items::new(alloc);
    values.push(Value::Int(i64::from(numbers.below(3))))?;
    Ok(values)
}

/// Names a value one time in three.
fn some_wanted(alloc: Global, numbers: &mut Numbers) -> Result<Wanted, NoMemory>
    ensures { IfOk result (λ wanted. IsTrue (are_keys wanted.keys)) }
{
    let fact = numbers.below(2);
    let keys = some_keys(alloc, numbers, 2)?;
    let mut values = Items::new(alloc);
    if numbers.below(3) == 0 {
        values.push(Some(Value::Int(i64::from(numbers.below(3)))))?;
    }
    Ok(Wanted { fact, keys, values })
}

/// A base of each kind, with the same rows.
#[derive(Drop)]
struct Pair {
    flat: Facts,
    layers: LayeredFacts,
}

fn copy_pair(alloc: Global, pair: &Pair) -> Result<Pair, NoMemory> {
    Ok(Pair {
        flat: pair.flat.copy(alloc)?,
        layers: pair.layers.copy(alloc)?,
    })
}

/// Creates a row in both. Whether they answer the same.
fn create_both(alloc: Global, pair: &mut Pair, numbers: &mut Numbers) -> Result<bool, NoMemory> {
    let fact = numbers.below(2);
    let keys = some_keys(alloc, numbers, 2)?;
    let values = some_value(alloc, numbers)?;
    let row = Row {
        fact,
        keys: copy_values(alloc, keys.as_slice())?,
        values: copy_values(alloc, values.as_slice())?,
    };
    let flat = pair.flat.create(alloc, row).err();
    let layers = pair.layers.create(alloc, Row { fact, keys, values }).err();
    Ok(flat == layers)
}

fn update_both(alloc: Global, pair: &mut Pair, numbers: &mut Numbers) -> Result<bool, NoMemory> {
    let old = some_wanted(alloc, numbers)?;
    let values = some_value(alloc, numbers)?;
    let copy = copy_values(alloc, values.as_slice())?;
    let flat = pair.flat.update(alloc, &old, copy).err();
    let layers = pair.layers.update(alloc, &old, values).err();
    Ok(flat == layers)
}

fn delete_both(alloc: Global, pair: &mut Pair, numbers: &mut Numbers) -> Result<bool, NoMemory> {
    let fact = numbers.below(2);
    let keys = some_keys(alloc, numbers, 2)?;
    let flat = pair.flat.delete(alloc, fact, &keys).err();
    let layers = pair.layers.delete(alloc, fact, &keys).err();
    Ok(flat == layers)
}

fn write_both(alloc: Global, pair: &mut Pair, numbers: &mut Numbers) -> Result<bool, NoMemory> {
    match numbers.below(5) {
        0 | 1 => create_both(alloc, pair, numbers),
        2 | 3 => update_both(alloc, pair, numbers),
        _ => delete_both(alloc, pair, numbers),
    }
}

fn is_same_row(row: &Row, other: &Row) -> bool {
    row.fact == other.fact
        && are_same_values(row.keys.as_slice(), other.keys.as_slice())
        && are_same_values(row.values.as_slice(), other.values.as_slice())
}

fn are_same_rows(rows: &[Row], others: &[Row]) -> bool {
    if rows.len() != others.len() {
        return false;
    }
    for i in 0..rows.len() {
        if !is_same_row(&rows[i], &others[i]) {
            return false;
        }
    }
    true
}

fn is_same_first(first: Option<Row>, other: Option<Row>) -> bool {
    match (first, other) {
        (Some(first), Some(other)) => is_same_row(&first, &other),
        (first, other) => first.is_none() && other.is_none(),
    }
}

/// Asks both. Whether they answer the same.
fn ask_both(alloc: Global, pair: &Pair, numbers: &mut Numbers) -> Result<bool, NoMemory> {
    let wanted = some_wanted(alloc, numbers)?;
    let limit = u64::from(numbers.below(20));
    let rows = pair.flat.select(alloc, &wanted)?;
    let others = pair.layers.select(alloc, &wanted)?;
    let first = pair.flat.first(alloc, &wanted)?;
    let other = pair.layers.first(alloc, &wanted)?;
    let count = pair.flat.count_up_to(&wanted, limit);
    let counted = pair.layers.count_up_to(&wanted, limit);
    Ok(
        are_same_rows(rows.as_slice(), others.as_slice())
            && is_same_first(first, other)
            && count == counted,
    )
}

/// Writes or asks.
fn answer_both(alloc: Global, pair: &mut Pair, numbers: &mut Numbers) -> Result<bool, NoMemory> {
    if numbers.below(2) == 0 {
        write_both(alloc, pair, numbers)
    } else {
        ask_both(alloc, pair, numbers)
    }
}

/// Goes on with a copy of the pair, which is kept, or with one that was kept before.
fn turned(
    alloc: Global,
    pair: Pair,
    kept: &mut Vec<Pair>,
    numbers: &mut Numbers,
) -> Result<Pair, NoMemory> {
    if kept.len() < KEPT {
        let copy = copy_pair(alloc, &pair)?;
        kept.push(pair)?;
        return Ok(copy);
    }
    let slot = numbers.below(5) as usize % kept.len().max(1);
    if slot >= kept.len() {
        return Ok(pair);
    }
    if numbers.below(2) == 0 {
        let copy = copy_pair(alloc, &pair)?;
        kept[slot] = pair;
        return Ok(copy);
    }
    Ok(mem::replace(&mut kept[slot], pair))
}

fn assert_turns(rt: &impl Abort, alloc: Global) -> Result<(), NoMemory> {
    let mut numbers = Numbers { last: 1 };
    let mut kept = Vec::new(alloc);
    let mut pair = Pair {
        flat: Facts::empty(alloc),
        layers: LayeredFacts::empty(alloc),
    };
    for _ in 0..TURNS {
        assert!(rt; answer_both(alloc, &mut pair, &mut numbers)?);
        if numbers.below(4) == 0 {
            pair = turned(alloc, pair, &mut kept, &mut numbers)?;
        }
    }
    Ok(())
}

// Writes and queries in no order, also of copies and of what they were copied from.
#[test]
fn both_bases_answer_the_same(rt: HostRuntime) -> Result<(), Fail> {
    let alloc = rt.alloc();
    assert_turns(&rt, alloc)?;
    Ok(())
}
