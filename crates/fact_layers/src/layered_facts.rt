ghost use Rattle.std.specs.Prelude.{IsTrue};
ghost use Rattle.fact_layers.specs.Layers.{layered, shared};
ghost use Rattle.fact_layers.specs.working.Said.{are_all_keyed};

use crate::folding::{put, share};
use crate::layer::Layer;
use crate::layers::held;
use crate::walk::next_row;
use base_bytes::{NoMemory, Values, copy_values};
use fact_store::{FactBase, Row, Wanted, WriteFault, has_named, row_at};
use sqlite_items::Items;
use std::alloc::Global;
use std::ops::Bound;
use std::sync::Arc;

/// A base in layers, the newest first. Copies share them. The newest is this base's own as long as no copy shares it, and then takes all writes.
#[derive(Drop)]
pub struct LayeredFacts {
    layers: Vec<Arc<Layer>>,
    ghost keyed: { IsTrue (are_all_keyed (shared layers.items)) },
}

impl FactBase for LayeredFacts {
    ghost use Rattle.fact_layers.specs.working.Bases.{layered_base};

    ghost rows = { λ facts. layered (shared facts.layers.items) };

    fn empty(alloc: Global) -> LayeredFacts {
        LayeredFacts {
            layers: Vec::new(alloc),
        }
    }

    fn first(&self, alloc: Global, wanted: &Wanted) -> Result<Option<Row>, NoMemory> {
        match next_row(self.layers.as_slice(), wanted, Bound::Included(wanted)) {
            Some((place, values)) => Ok(Some(row_at(alloc, place, values)?)),
            None => Ok(None),
        }
    }

    fn count_up_to(&self, wanted: &Wanted, limit: u64) -> u64 {
        let mut from = Bound::Included(wanted);
        for found in 0..limit {
            match next_row(self.layers.as_slice(), wanted, from) {
                Some((place, _)) => from = Bound::Excluded(place),
                None => return found,
            }
        }
        limit
    }

    fn select(&self, alloc: Global, wanted: &Wanted) -> Result<Vec<Row>, NoMemory> {
        let mut found = Vec::new(alloc);
        let mut from = Bound::Included(wanted);
        while let Some((place, values)) = next_row(self.layers.as_slice(), wanted, from) {
            found.push(row_at(alloc, place, values)?)?;
            from = Bound::Excluded(place);
        }
        Ok(found)
    }

    fn create(&mut self, alloc: Global, row: Row) -> Result<(), WriteFault> {
        let Row { fact, keys, values } = row;
        let place = Wanted {
            fact,
            keys,
            values: Items::new(alloc),
        };
        if held(self.layers.as_slice(), &place).is_some() {
            return Err(WriteFault::Exists);
        }
        put(&mut self.layers, alloc, place, Some(values))?;
        Ok(())
    }

    fn update(&mut self, alloc: Global, old: &Wanted, values: Values) -> Result<(), WriteFault> {
        let Some(there) = held(self.layers.as_slice(), old) else {
            return Err(WriteFault::Missing);
        };
        if !has_named(old.values.as_slice(), there.as_slice()) {
            return Err(WriteFault::Differs);
        }
        let place = Wanted {
            fact: old.fact,
            keys: copy_values(alloc, old.keys.as_slice())?,
            values: Items::new(alloc),
        };
        put(&mut self.layers, alloc, place, Some(values))?;
        Ok(())
    }

    fn delete(&mut self, alloc: Global, fact: u32, keys: &Values) -> Result<(), WriteFault> {
        let place = Wanted {
            fact,
            keys: copy_values(alloc, keys.as_slice())?,
            values: Items::new(alloc),
        };
        if held(self.layers.as_slice(), &place).is_none() {
            return Err(WriteFault::Missing);
        }
        put(&mut self.layers, alloc, place, None)?;
        Ok(())
    }

    fn copy(&self, alloc: Global) -> Result<LayeredFacts, NoMemory> {
        let mut layers = Vec::with_capacity(alloc, self.layers.len())?;
        share(&mut layers, self.layers.as_slice())?;
        Ok(LayeredFacts { layers })
    }

    ghost base = { λ facts. layered_base (shared facts.layers.items) facts.keyed };
}
