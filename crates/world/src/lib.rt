//! A world: replicas by name, on which the lines of a script are run one after another.
#![tactic(auto)]

mod changes;
mod events;
mod making;
mod named;
mod opening;
mod reasons;
mod replies;
mod running;
mod said;
mod session;
mod showing;
mod stop;
mod sum;
mod world;

pub use stop::RunStop;
pub use world::World;
