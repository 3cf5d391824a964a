//! Tests of the lock of turns, with threads: what no contract says.
#![tactic(auto)]

#[cfg(test)]
mod threads;
