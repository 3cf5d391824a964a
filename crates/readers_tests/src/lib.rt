//! Tests of readers beside a writer: what no contract says.
#![tactic(auto)]

#[cfg(test)]
mod beside;
#[cfg(test)]
mod samples;
#[cfg(test)]
mod told;
