//! The braid of a graph of commands, and its laws.
#![tactic(auto)]

mod children;
mod closure;
mod laws;
mod ordering;
mod turns;

pub use laws::{
    agreeing_lists_have_one_braid, bases_are_final, closures_have_one_braid, closures_stay,
    finalize_is_final, lists_have_one_braid,
};
pub use ordering::{braid, braid_above};
