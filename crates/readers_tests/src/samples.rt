ghost use Rattle.std.specs.Prelude.{IfOk, IsTrue};
ghost use Rattle.std.specs.List.{list_all};
ghost use Rattle.fact_readers.specs.Changes.{is_keyed};
ghost use Rattle.fact_store.specs.Rows.{are_keys};

use base_bytes::{NoMemory, Value, Values};
use fact_readers::RowChange;
use fact_store::{Row, Wanted};
use sqlite_items::Items;
use std::alloc::Global;

/// The fact that all rows are of.
const FACT: u32 = 3;

/// How many keys have a row that comes and goes.
const PLACES: u32 = 16;

fn one_number(alloc: Global, number: u32) -> Result<Values, NoMemory>
    ensures { IfOk result (λ keys. IsTrue (are_keys keys)) }
{
    let mut keys = Items::new(alloc);
    keys.push(Value::Int(i64::from(number)))?;
    Ok(keys)
}

/// All rows.
pub fn all_rows(alloc: Global) -> Wanted
    ensures { IsTrue (are_keys result.keys) }
{
    Wanted {
        fact: FACT,
        keys: Items::new(alloc),
        values: Items::new(alloc),
    }
}

/// The row that has the number of the last commit for its value.
pub fn counting_row(alloc: Global) -> Result<Wanted, NoMemory>
    ensures { IfOk result (λ wanted. IsTrue (are_keys wanted.keys)) }
{
    Ok(Wanted {
        fact: FACT,
        keys: one_number(alloc, PLACES)?,
        values: Items::new(alloc),
    })
}

/// Whether the row is the counting row after so many commits.
pub fn counts(row: Option<Row>, number: u64) -> bool {
    match row {
        None => number == 0,
        Some(row) => match row.values.as_slice() {
            [Value::Int(value)] => u64::try_from(*value) == Ok(number),
            _ => false,
        },
    }
}

/// The commit of this number, from 1: the counting row gets the number, and another row comes or goes.
pub fn commit(alloc: Global, number: u32) -> Result<Vec<RowChange>, NoMemory>
    ensures { IfOk result (λ changes. IsTrue (list_all is_keyed changes.items)) }
{
    let mut changes = Vec::new(alloc);
    changes.push(RowChange::Put(Row {
        fact: FACT,
        keys: one_number(alloc, PLACES)?,
        values: one_number(alloc, number)?,
    }))?;
    let keys = one_number(alloc, number % PLACES)?;
    if number / PLACES % 2 == 0 {
        changes.push(RowChange::Put(Row {
            fact: FACT,
            keys,
            values: Items::new(alloc),
        }))?;
    } else {
        changes.push(RowChange::Remove { fact: FACT, keys })?;
    }
    Ok(changes)
}

/// How many rows there are after so many commits: each place's last commit tells whether its row is there.
pub fn rows_after(number: u32) -> u64 {
    let mut rows = if number > 0 { 1u64 } else { 0 };
    for back in 0..PLACES.min(number) {
        if (number - back) / PLACES % 2 == 0 {
            rows = rows.saturating_add(1);
        }
    }
    rows
}
