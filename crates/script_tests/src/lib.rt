//! Tests of scripts and of printed texts: what no contract says, against values worked out by hand.
#![tactic(auto)]

#[cfg(test)]
mod arguments;
#[cfg(test)]
mod limits;
#[cfg(test)]
mod lines;
#[cfg(test)]
mod page;
#[cfg(test)]
mod shown;
#[cfg(test)]
mod texts;
