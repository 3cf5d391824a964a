//! Tests over whole policies: what actions print and what commands come to, by the rules of a document.
#![tactic(auto)]

#[cfg(test)]
mod admissions;
#[cfg(test)]
mod admitting;
#[cfg(test)]
mod documents;
#[cfg(test)]
mod envelopes;
#[cfg(test)]
mod graphs;
#[cfg(test)]
mod loading;
#[cfg(test)]
mod outcomes;
#[cfg(test)]
mod player;
#[cfg(test)]
mod printing;
#[cfg(test)]
mod refusals;
#[cfg(test)]
mod runs;
#[cfg(test)]
mod scripts;
