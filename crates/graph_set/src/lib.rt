//! A graph of commands as one list, with an index of their ids.
#![tactic(auto)]

mod heads;
mod list_graph;
mod walk;

pub use list_graph::ListGraph;
