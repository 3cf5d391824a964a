//! Tests of the policy language: what no contract says, against values worked out by hand. Other crates of tests take whole policies and a `Page` from here.
#![tactic(auto)]

#[cfg(test)]
mod documents;
#[cfg(test)]
mod examples;
#[cfg(test)]
mod heights;
mod page;
pub mod policies;
#[cfg(test)]
mod read;
#[cfg(test)]
mod refused_forms;
#[cfg(test)]
mod shown;
#[cfg(test)]
mod shown_expr;
#[cfg(test)]
mod shown_item;
#[cfg(test)]
mod shown_leaves;
#[cfg(test)]
mod shown_stmt;
#[cfg(test)]
mod syntax_faults;
#[cfg(test)]
mod token_forms;
#[cfg(test)]
mod trees;

pub use page::Page;
