ghost use Rattle.std.specs.Prelude.{◌≡◌, ◌⊎◌, Err, IfOk, IsTrue, OnOk};
ghost use Rattle.std.specs.List.{list_all};
ghost use Rattle.fact_readers.specs.Changes.{changed, committed, is_keyed, put_row, removed};
ghost use Rattle.fact_readers.specs.working.Places.{is_missing, place_of};
ghost use Rattle.fact_store.specs.Rows.{are_keys};
ghost use Rattle.fact_store.specs.Writes.{updated};
ghost use Rattle.fact_store.specs.declared.write_fault.WriteFault.TheVariants as fault;

use base_bytes::{NoMemory, Values, copy_values};
use fact_store::{FactBase, Row, Wanted, WriteFault};
use sqlite_items::Items;
use std::alloc::Global;

/// One change of rows: a row that is added or replaces the one of its keys, or keys whose row goes.
#[derive(Drop)]
pub enum RowChange {
    Put(Row),
    Remove { fact: u32, keys: Values },
}

/// A commit that the writer could not take, for want of memory.
#[derive(Drop)]
pub struct Handed {
    pub commit: Vec<RowChange>,
}

/// The place of a row: a query of its keys that names no value.
fn place_of(alloc: Global, row: &Row) -> Result<Wanted, NoMemory>
    ensures { IfOk result (λ place. place ≡ place_of row.now) }
{
    Ok(Wanted {
        fact: row.fact,
        keys: copy_values(alloc, row.keys.as_slice())?,
        values: Items::new(alloc),
    })
}

fn copy_row(alloc: Global, row: &Row) -> Result<Row, NoMemory>
    ensures { IfOk result (λ other. other ≡ row.now) }
{
    Ok(Row {
        fact: row.fact,
        keys: copy_values(alloc, row.keys.as_slice())?,
        values: copy_values(alloc, row.values.as_slice())?,
    })
}

/// Adds a row where an update found none.
fn add<F: FactBase>(
    alloc: Global,
    facts: &mut F,
    row: &Row,
    why: WriteFault,
) -> Result<(), NoMemory>
    requires keys { IsTrue (are_keys row.now.keys) }
    requires missing { (why ≡ fault.NoMemory) ⊎ (updated (place_of row.now) row.now.values (F.rows facts.old) ≡ Err why) }
    ensures { OnOk result (F.rows facts.new ≡ put_row row.now (F.rows facts.old)) }
{
    if !is_missing(why) {
        return Err(NoMemory);
    }
    let row = copy_row(alloc, row)?;
    match facts.create(alloc, row) {
        Ok(()) => Ok(()),
        Err(_) => Err(NoMemory),
    }
}

/// Whether there was no row.
fn is_missing(why: WriteFault) -> bool
    ensures { result ≡ is_missing why }
{
    match why {
        WriteFault::Exists => false,
        WriteFault::Missing => true,
        WriteFault::Differs => false,
        WriteFault::NoMemory => false,
    }
}

/// Adds the row, or gives its values to the row of its keys.
fn put<F: FactBase>(alloc: Global, facts: &mut F, row: &Row) -> Result<(), NoMemory>
    requires { IsTrue (are_keys row.now.keys) }
    ensures { OnOk result (F.rows facts.new ≡ put_row row.now (F.rows facts.old)) }
{
    let place = place_of(alloc, row)?;
    let values = copy_values(alloc, row.values.as_slice())?;
    match facts.update(alloc, &place, values) {
        Ok(()) => Ok(()),
        Err(why) => add(alloc, facts, row, why),
    }
}

/// Takes the row of these keys away, where it is there.
fn remove<F: FactBase>(
    alloc: Global,
    facts: &mut F,
    fact: u32,
    keys: &Values,
) -> Result<(), NoMemory>
    requires { IsTrue (are_keys keys.now) }
    ensures { OnOk result (F.rows facts.new ≡ removed fact keys.now (F.rows facts.old)) }
{
    match facts.delete(alloc, fact, keys) {
        Ok(()) => Ok(()),
        Err(why) => {
            if is_missing(why) {
                Ok(())
            } else {
                Err(NoMemory)
            }
        }
    }
}

fn change<F: FactBase>(alloc: Global, facts: &mut F, change: &RowChange) -> Result<(), NoMemory>
    requires { IsTrue (is_keyed change.now) }
    ensures { OnOk result (F.rows facts.new ≡ changed (F.rows facts.old) change.now) }
{
    match change {
        RowChange::Put(row) => put(alloc, facts, row),
        RowChange::Remove { fact, keys } => remove(alloc, facts, *fact, keys),
    }
}

/// Makes the changes in order. After a refusal some of them may stand.
pub fn change_all<F: FactBase>(
    alloc: Global,
    facts: &mut F,
    changes: &[RowChange],
) -> Result<(), NoMemory>
    requires { IsTrue (list_all is_keyed changes.now) }
    ensures { OnOk result (F.rows facts.new ≡ committed (F.rows facts.old) changes.now) }
{
    match changes {
        [] => Ok(()),
        [first, rest @ ..] => {
            change(alloc, facts, first)?;
            change_all(alloc, facts, rest)
        }
    }
}
