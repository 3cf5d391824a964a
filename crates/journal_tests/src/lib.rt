//! Tests of the journal: what no contract says, against bytes written by hand, and every image that a crash may leave.
#![tactic(auto)]

#[cfg(test)]
mod adding;
#[cfg(test)]
mod again;
#[cfg(test)]
mod crashes;
#[cfg(test)]
mod images;
#[cfg(test)]
mod written;
