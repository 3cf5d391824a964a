//! Tests of overlays: what no contract says, against heads and ancestors worked out by hand.
#![tactic(auto)]

#[cfg(test)]
mod overlays;
