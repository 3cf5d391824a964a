//! What policies mean: how expressions and statements are evaluated, what the blocks of a command make of facts, and the traits of those who run
//! blocks and take what actions publish.
#![tactic(auto)]

mod call;
mod calls;
mod desk;
mod effect;
mod ends;
mod given;
pub mod laws;
mod names;
mod plain;
mod resolving;
mod runner;
mod shaping;

pub use call::Call;
pub use calls::call_of;
pub use desk::Desk;
pub use effect::{Effect, Effects};
pub use ends::{ActionEnd, FaultKind, Posted, Verdict, Why};
pub use resolving::{resolve, resolve_by_shapes};
pub use runner::Runner;
pub use shaping::shapes;
