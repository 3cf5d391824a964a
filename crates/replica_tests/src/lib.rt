//! Tests of replicas: sessions of two of them call by call, and what each call refuses.
#![tactic(auto)]

#[cfg(test)]
mod calls;
#[cfg(test)]
mod parties;
#[cfg(test)]
mod refusals;
#[cfg(test)]
mod said;
#[cfg(test)]
mod sessions;
