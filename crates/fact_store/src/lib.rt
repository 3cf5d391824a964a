//! Rows of facts: what every policy asks of them and changes, as one trait, and its first base.
#![tactic(auto)]

mod fact_base;
mod facts;
mod laws;
mod matching;
mod order;
mod row;
mod wanted;
mod write_fault;

pub use fact_base::FactBase;
pub use facts::Facts;
pub use laws::{
    bases_are_told_by_places, longer_prefixes_find_less, places_have_one_row, sameness_is_equality,
    writes_leave_bases, writes_leave_other_rows, writes_stand_at_their_keys,
};
pub use matching::{has_named, is_place_within};
pub use row::{Row, row_at};
pub use wanted::Wanted;
pub use write_fault::WriteFault;
