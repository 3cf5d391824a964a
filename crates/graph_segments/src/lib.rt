//! A graph of commands in segments.
#![tactic(auto)]

mod marks;
mod segment_graph;
mod tables;

pub use segment_graph::SegmentGraph;
pub use tables::{Location, Segment};
