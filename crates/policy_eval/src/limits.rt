//! The limits of evaluations.

/// The longest chain of calls.
pub(crate) const LONGEST: u32 = 16;

/// The turns of one evaluation.
pub(crate) const TURNS: u32 = 100_000;
