//! The small parts of an evaluator of policies: names with their values, what each operation makes of the values of its operands, the rows that a
//! pattern asks for, and writes. An evaluator walks the trees and calls these.
#![tactic(auto)]

mod applying;
mod arms;
mod change;
mod changes;
mod env;
mod known;
mod lists;
mod operators;
mod patterns;
mod queries;
mod setting;
mod stop;
mod structs;
mod values;

pub use applying::{apply, apply_all, apply_or_leave};
pub use arms::first_body;
pub use change::{Change, Changes};
pub use changes::{create_of, delete_of, emit_of, update_of};
pub use env::Env;
pub use known::Known;
pub use lists::{let_in, push_change, push_gap, push_value};
pub use operators::{
    calculation_of, check_of, compare_of, presence_of, some_of, truth_of, unary_of,
};
pub use patterns::pattern_of;
pub use queries::{count_of, exists_of, query_of, row_value};
pub use setting::Setting;
pub use stop::{Answer, Stop, take_turn};
pub use structs::{field_of, struct_of};
pub use values::{foreign_value, literal_value, name_value, this_value};
