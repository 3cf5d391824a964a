//! Tests of the check of types: what no contract says, against verdicts worked out by hand.
#![tactic(auto)]

#[cfg(test)]
mod blocks;
#[cfg(test)]
mod commands;
#[cfg(test)]
mod expressions;
#[cfg(test)]
mod items;
#[cfg(test)]
mod limits;
#[cfg(test)]
mod names;
#[cfg(test)]
mod patterns;
#[cfg(test)]
mod policies;
#[cfg(test)]
mod statements;
#[cfg(test)]
mod table;
#[cfg(test)]
mod tables;
