ghost use Rattle.std.specs.Prelude.{IfOk, IsTrue};
ghost use Rattle.base_bytes.specs.KeyOrder.{is_key};
ghost use Rattle.fact_store.specs.Rows.{are_keys};

use base_bytes::{Bytes, Id, NoMemory, Text, Value, Values, are_same_values};
use fact_store::{FactBase, Row, Wanted, WriteFault};
use sqlite_items::{Boxed, Items};
use std::alloc::Global;
use std::process::Abort;
use std::test::*;

/// What a table writes for a key. An id is given by its first byte and its last.
#[derive(Clone, Copy)]
pub enum Key {
    Int(i64),
    Bool(bool),
    Text(&'static str),
    Raw(&'static [u8]),
    Ident(u8, u8),
    Enum(u32, u16),
}

/// What a table writes for a value. An optional one is given by its number, or is nothing.
#[derive(Clone, Copy)]
pub enum Held {
    Int(i64),
    Text(&'static str),
    Enum(u32, u16),
    Nothing,
    Something(i64),
}

/// A row of a table: its fact, its keys, and its values.
pub type Sample = (u32, &'static [Key], &'static [Held]);

/// A query of a table: its fact, its keys, and its named values.
pub type Query = (u32, &'static [Key], &'static [Option<Held>]);

fn key_of(alloc: Global, key: Key) -> Result<Value, NoMemory>
    ensures { IfOk result (λ value. IsTrue (is_key value)) }
{
    match key {
        Key::Int(number) => Ok(Value::Int(number)),
        Key::Bool(truth) => Ok(Value::Bool(truth)),
        Key::Text(text) => Ok(Value::Str(Text::from_slice(alloc, text)?)),
        Key::Raw(bytes) => Ok(Value::Raw(Bytes::from_slice(alloc, bytes)?)),
        Key::Ident(first, last) => {
            let mut bytes = [0; 32];
            bytes[0] = first;
            bytes[31] = last;
            Ok(Value::Ident(Id::new(bytes)))
        }
        Key::Enum(item, ordinal) => Ok(Value::Enum(item, ordinal)),
    }
}

fn value_of(alloc: Global, held: Held) -> Result<Value, NoMemory> {
    match held {
        Held::Int(number) => Ok(Value::Int(number)),
        Held::Text(text) => Ok(Value::Str(Text::from_slice(alloc, text)?)),
        Held::Enum(item, ordinal) => Ok(Value::Enum(item, ordinal)),
        Held::Nothing => Ok(Value::Nothing),
        Held::Something(number) => Ok(Value::Some(Boxed::new(alloc, Value::Int(number))?)),
    }
}

pub fn keys_of(alloc: Global, keys: &[Key]) -> Result<Values, NoMemory>
    ensures { IfOk result (λ values. IsTrue (are_keys values)) }
{
    let mut values = Items::new(alloc);
    for key in keys {
        values.push(key_of(alloc, *key)?)?;
    }
    Ok(values)
}

pub fn values_of(alloc: Global, held: &[Held]) -> Result<Values, NoMemory> {
    let mut values = Items::new(alloc);
    for value in held {
        values.push(value_of(alloc, *value)?)?;
    }
    Ok(values)
}

pub fn row_of(alloc: Global, sample: Sample) -> Result<Row, NoMemory>
    ensures { IfOk result (λ row. IsTrue (are_keys row.keys)) }
{
    let (fact, keys, values) = sample;
    let keys = keys_of(alloc, keys)?;
    let values = values_of(alloc, values)?;
    Ok(Row { fact, keys, values })
}

pub fn wanted(alloc: Global, query: Query) -> Result<Wanted, NoMemory>
    ensures { IfOk result (λ wanted. IsTrue (are_keys wanted.keys)) }
{
    let (fact, keys, named) = query;
    let keys = keys_of(alloc, keys)?;
    let mut values = Items::new(alloc);
    for value in named {
        match value {
            Some(value) => values.push(Some(value_of(alloc, *value)?))?,
            None => values.push(None)?,
        }
    }
    Ok(Wanted { fact, keys, values })
}

/// A base with the rows of the table, created from the last to the first.
pub fn filled<F: FactBase>(alloc: Global, samples: &[Sample]) -> Result<F, WriteFault> {
    let mut facts = F::empty(alloc);
    for i in 0..samples.len() {
        let row = row_of(alloc, samples[samples.len() - 1 - i])?;
        facts.create(alloc, row)?;
    }
    Ok(facts)
}

/// Whether the row is the sample: its fact, its keys, and its values.
fn is_row(alloc: Global, row: &Row, sample: Sample) -> Result<bool, NoMemory> {
    let other = row_of(alloc, sample)?;
    Ok(
        row.fact == other.fact
            && are_same_values(row.keys.as_slice(), other.keys.as_slice())
            && are_same_values(row.values.as_slice(), other.values.as_slice()),
    )
}

/// Whether the rows are the samples, in their order.
fn are_rows(alloc: Global, rows: &[Row], samples: &[Sample]) -> Result<bool, NoMemory> {
    if rows.len() != samples.len() {
        return Ok(false);
    }
    for i in 0..rows.len() {
        if !is_row(alloc, &rows[i], samples[i])? {
            return Ok(false);
        }
    }
    Ok(true)
}

/// Whether the row is the first of the samples, or there is neither.
fn is_first(alloc: Global, row: Option<Row>, samples: &[Sample]) -> Result<bool, NoMemory> {
    match row {
        Some(row) => match samples {
            [] => Ok(false),
            [sample, ..] => is_row(alloc, &row, *sample),
        },
        None => Ok(samples.is_empty()),
    }
}

/// The query finds just the samples, in their order, by each call that asks.
pub fn assert_finds<F: FactBase>(
    rt: &impl Abort,
    alloc: Global,
    facts: &F,
    query: Query,
    samples: &[Sample],
) -> Result<(), NoMemory> {
    let wanted = wanted(alloc, query)?.copy(alloc)?;
    let rows = facts.select(alloc, &wanted)?;
    assert!(rt; are_rows(alloc, rows.as_slice(), samples)?);
    let first = facts.first(alloc, &wanted)?;
    assert!(rt; is_first(alloc, first, samples)?);
    assert!(rt; facts.count_up_to(&wanted, u64::MAX) == samples.len() as u64);
    assert!(rt; facts.count_up_to(&wanted, 1) == samples.len().min(1) as u64);
    assert!(rt; facts.count_up_to(&wanted, 2) == samples.len().min(2) as u64);
    assert!(rt; facts.count_up_to(&wanted, 0) == 0);
    Ok(())
}
