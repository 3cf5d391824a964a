ghost use Rattle.std.specs.Prelude.{◌≡◌, IfOk, refl};
ghost use Rattle.std.specs.Ordering.{as_partial_cmp, eq_by_cmp};
ghost use Rattle.std.specs.Cmp.{eq_by_cmp_equiv, partial_equiv_from_equiv, partial_order_from_total};

use crate::order::compare_lists;
use base_bytes::{NoMemory, Value, Values, copy_values};
use sqlite_items::Items;
use std::alloc::Global;
use std::cmp::Ordering;

/// What a query asks for: the rows of a fact whose keys begin with these and whose values are the named ones.
/// Its order is that of where its rows begin, by fact and keys alone. So `==` ignores the named values, and is no equality of queries.
#[derive(Drop)]
pub struct Wanted {
    pub fact: u32,
    pub keys: Values,
    pub values: Items<Option<Value>>,
}

impl Wanted {
    pub fn copy(&self, alloc: Global) -> Result<Wanted, NoMemory>
        ensures { IfOk result (λ other. other ≡ self.now) }
    {
        let keys = copy_values(alloc, self.keys.as_slice())?;
        let mut values = Items::new(alloc);
        for value in self.values.as_slice() {
            match value {
                Some(value) => values.push(Some(value.copy(alloc)?))?,
                None => values.push(None)?,
            }
        }
        Ok(Wanted {
            fact: self.fact,
            keys,
            values,
        })
    }
}

impl PartialEq for Wanted {
    ghost use Rattle.fact_store.specs.working.Orders.{wanted_order, wanted_order_total};

    ghost eq = { eq_by_cmp wanted_order };

    ghost laws = { partial_equiv_from_equiv (eq_by_cmp_equiv wanted_order_total) };

    fn eq(&self, other: &Wanted) -> bool {
        self.cmp(other).is_eq()
    }
}

impl Eq for Wanted {
    ghost use Rattle.fact_store.specs.working.Orders.{wanted_order_total};

    ghost laws = { eq_by_cmp_equiv wanted_order_total };
}

impl PartialOrd for Wanted {
    ghost use Rattle.fact_store.specs.working.Orders.{wanted_order, wanted_order_total};

    ghost partial_cmp = { as_partial_cmp wanted_order };

    ghost laws = { partial_order_from_total wanted_order_total };

    fn partial_cmp(&self, other: &Wanted) -> Option<Ordering> {
        Some(self.cmp(other))
    }
}

impl Ord for Wanted {
    ghost use Rattle.fact_store.specs.working.Orders.{wanted_order, wanted_order_total};

    ghost cmp = { wanted_order };

    ghost total = { wanted_order_total };

    ghost matches_partial_cmp = { λ x y. refl };

    ghost matches_eq = { λ x y. refl };

    fn cmp(&self, other: &Wanted) -> Ordering {
        match self.fact.cmp(&other.fact) {
            Ordering::Equal => compare_lists(self.keys.as_slice(), other.keys.as_slice()),
            unequal => unequal,
        }
    }
}
