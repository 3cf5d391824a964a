//! Tests of the forms of bytes: what no contract says, against values that come from outside.
#![tactic(auto)]

#[cfg(test)]
mod commands;
#[cfg(test)]
mod cuts;
#[cfg(test)]
mod decoding;
#[cfg(test)]
mod forms;
#[cfg(test)]
mod keys;
#[cfg(test)]
mod limits;
#[cfg(test)]
mod lists;
#[cfg(test)]
mod outside_objects;
#[cfg(test)]
mod payloads;
