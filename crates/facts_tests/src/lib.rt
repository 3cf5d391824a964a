//! Tests of fact bases: what no contract says, and that the definitions mean what was written down by hand.
#![tactic(auto)]

#[cfg(test)]
mod both;
#[cfg(test)]
mod queries;
#[cfg(test)]
mod samples;
#[cfg(test)]
mod writes;
