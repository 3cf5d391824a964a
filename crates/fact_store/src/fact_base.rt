ghost use Rattle.std.specs.Prelude.{◌≡◌, [], IfOk, IsTrue, min};
ghost use Rattle.fact_store.specs.Matching.{first_row, row_count, selected};
ghost use Rattle.fact_store.specs.Rows.{are_keys, is_base};
ghost use Rattle.fact_store.specs.Writes.{Writes, created, deleted, updated};

use crate::{Row, Wanted, WriteFault};
use base_bytes::{NoMemory, Values};
use std::alloc::Global;

/// Rows of facts, in fact order. Every call that takes a row, a query or keys asks that the keys are key values.
pub trait FactBase: Sized + Drop {
    ghost use Rattle.std.specs.Prelude.{List};
    ghost use Rattle.fact_store.specs.declared.row.Row.{Row};

    /// The rows, in fact order.
    ghost rows: { Self → List Row };

    /// No rows. Takes no memory.
    fn empty(alloc: Global) -> Self
        ensures { rows result ≡ [] };

    /// The first row that matches.
    fn first(&self, alloc: Global, wanted: &Wanted) -> Result<Option<Row>, NoMemory>
        requires { IsTrue (are_keys wanted.now.keys) }
        ensures { IfOk result (λ found. found ≡ first_row wanted.now (rows self.now)) };

    /// How many rows match, counted up to the limit. Takes no memory.
    fn count_up_to(&self, wanted: &Wanted, limit: u64) -> u64
        requires { IsTrue (are_keys wanted.now.keys) }
        ensures { result ≡ min limit (row_count wanted.now (rows self.now)) };

    /// All rows that match, in fact order.
    fn select(&self, alloc: Global, wanted: &Wanted) -> Result<Vec<Row>, NoMemory>
        requires { IsTrue (are_keys wanted.now.keys) }
        ensures { IfOk result (λ found. found.items ≡ selected wanted.now (rows self.now)) };

    /// Adds the row. `Exists` where one of its fact and keys is there.
    fn create(&mut self, alloc: Global, row: Row) -> Result<(), WriteFault>
        requires { IsTrue (are_keys row.keys) }
        ensures { Writes (created row (rows self.old)) (rows self.old) result (rows self.new) };

    /// Gives the row of just the wanted keys these values. `Missing` where it isn't there, `Differs` where a named old value isn't its value.
    fn update(&mut self, alloc: Global, old: &Wanted, values: Values) -> Result<(), WriteFault>
        requires { IsTrue (are_keys old.now.keys) }
        ensures { Writes (updated old.now values (rows self.old)) (rows self.old) result (rows self.new) };

    /// Removes the row of just these keys. `Missing` where it isn't there.
    fn delete(&mut self, alloc: Global, fact: u32, keys: &Values) -> Result<(), WriteFault>
        requires { IsTrue (are_keys keys.now) }
        ensures { Writes (deleted fact keys.now (rows self.old)) (rows self.old) result (rows self.new) };

    /// Another base with the same rows.
    fn copy(&self, alloc: Global) -> Result<Self, NoMemory>
        ensures { IfOk result (λ other. rows other ≡ rows self.now) };

    /// The rows ascend in fact order, and their keys are key values.
    ghost base: { (facts : Self) → IsTrue (is_base (rows facts)) };
}
