ghost use Rattle.std.specs.Prelude.{IfOk, IsTrue};
ghost use Rattle.std.specs.BTreeMap.{IsFromIterResult};
ghost use Rattle.fact_store.specs.working.Orders.{wanted_order};
ghost use Rattle.fact_store.specs.Rows.{is_base};
ghost use Rattle.fact_store.specs.Stored.{rows_of};

use crate::matching::{has_named, is_place_within};
use crate::row::row_at;
use crate::{FactBase, Row, Wanted, WriteFault};
use base_bytes::{NoMemory, Values, copy_values};
use sqlite_items::Items;
use std::alloc::{AllocError, Global};
use std::collections::BTreeMap;

/// A flat base: one ordered map from the place of a row, a query that names no value, to the row's values.
#[derive(Drop)]
pub struct Facts {
    stored: BTreeMap<Wanted, Values>,
    ghost base: { IsTrue (is_base (rows_of stored.entries)) },
}

impl FactBase for Facts {
    ghost rows = { λ facts. rows_of facts.stored.entries };

    fn empty(alloc: Global) -> Facts {
        Facts {
            stored: BTreeMap::new(alloc),
        }
    }

    fn first(&self, alloc: Global, wanted: &Wanted) -> Result<Option<Row>, NoMemory> {
        for (place, values) in self.stored.range(wanted..) {
            if !is_place_within(wanted, place) {
                return Ok(None);
            }
            if has_named(wanted.values.as_slice(), values.as_slice()) {
                return Ok(Some(row_at(alloc, place, values)?));
            }
        }
        Ok(None)
    }

    fn count_up_to(&self, wanted: &Wanted, limit: u64) -> u64 {
        let mut found = 0;
        for (place, values) in self.stored.range(wanted..) {
            if found == limit || !is_place_within(wanted, place) {
                return found;
            }
            if has_named(wanted.values.as_slice(), values.as_slice()) {
                found += 1;
            }
        }
        found
    }

    fn select(&self, alloc: Global, wanted: &Wanted) -> Result<Vec<Row>, NoMemory> {
        let mut found = Vec::new(alloc);
        for (place, values) in self.stored.range(wanted..) {
            if !is_place_within(wanted, place) {
                return Ok(found);
            }
            if has_named(wanted.values.as_slice(), values.as_slice()) {
                found.push(row_at(alloc, place, values)?)?;
            }
        }
        Ok(found)
    }

    fn create(&mut self, alloc: Global, row: Row) -> Result<(), WriteFault> {
        let Row { fact, keys, values } = row;
        let place = Wanted {
            fact,
            keys,
            values: Items::new(alloc),
        };
        if self.stored.contains_key(&place) {
            return Err(WriteFault::Exists);
        }
        self.stored.insert(place, values)?;
        Ok(())
    }

    fn update(&mut self, _alloc: Global, old: &Wanted, values: Values) -> Result<(), WriteFault> {
        let Some(held) = self.stored.get_mut(old) else {
            return Err(WriteFault::Missing);
        };
        if !has_named(old.values.as_slice(), held.as_slice()) {
            return Err(WriteFault::Differs);
        }
        *held = values;
        Ok(())
    }

    fn delete(&mut self, alloc: Global, fact: u32, keys: &Values) -> Result<(), WriteFault> {
        let place = Wanted {
            fact,
            keys: copy_values(alloc, keys.as_slice())?,
            values: Items::new(alloc),
        };
        match self.stored.remove(&place) {
            Some(_) => Ok(()),
            None => Err(WriteFault::Missing),
        }
    }

    fn copy(&self, alloc: Global) -> Result<Facts, NoMemory> {
        let mut entries = Vec::new(alloc);
        for (place, values) in &self.stored {
            let values = copy_values(alloc, values.as_slice())?;
            entries.push((place.copy(alloc)?, values))?;
        }
        let stored = map_of(alloc, entries)?;
        Ok(Facts { stored })
    }

    ghost base = { λ facts. facts.base };
}

/// The map of these entries. Entries that ascend already take no more comparisons than they are.
fn map_of(
    alloc: Global,
    entries: Vec<(Wanted, Values)>,
) -> Result<BTreeMap<Wanted, Values>, AllocError>
    ensures { IfOk result (IsFromIterResult wanted_order entries.items) }
{
    entries.into_iter().collect(alloc)
}
