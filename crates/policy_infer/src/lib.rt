//! The types of expressions, and whether the bodies of functions, actions, finish functions and blocks of commands are well typed.
#![tactic(auto)]

mod bodies;
mod coverage;
mod expressions;
mod field_lists;
mod finish;
mod foreign;
mod forms;
mod passing;
mod pattern_set;
mod plain;
mod refusal;
mod returns;
mod scope;
mod statement_rules;
mod statements;
mod uses;

pub use bodies::{body_is, finish_stmts_are};
pub use returns::ends_in_return;
