ghost use Rattle.std.specs.Prelude.{◌≡◌, IfOk};
ghost use Rattle.fact_store.specs.Stored.{row_of};

use crate::Wanted;
use base_bytes::{NoMemory, Values, copy_values};
use std::alloc::Global;

/// A row of a fact. The fact is its item number of the policy.
#[derive(Drop)]
pub struct Row {
    pub fact: u32,
    pub keys: Values,
    pub values: Values,
}

/// A copy of the row at the place, with these values.
pub fn row_at(alloc: Global, place: &Wanted, values: &Values) -> Result<Row, NoMemory>
    ensures { IfOk result (λ row. row ≡ row_of (place.now, values.now)) }
{
    let keys = copy_values(alloc, place.keys.as_slice())?;
    let values = copy_values(alloc, values.as_slice())?;
    Ok(Row {
        fact: place.fact,
        keys,
        values,
    })
}
