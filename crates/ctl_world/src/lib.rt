//! The world of a controller, in code: a store that others edit, what of it is still to be shown,
//! and a core that may stop. It is made one step at a time, and no two services of its store are
//! ever recorded with one address, unless they share it.
//!
//! Where memory runs out for the copy of an event that passes the limit of services, a take answers
//! NoMemory, and the world is unchanged.
#![tactic(auto)]

mod clashes;
mod edits;
mod lanes;
mod puts;
mod starts;
mod state;
mod takes;
mod terms;
mod world;

pub use starts::StartFault;
pub use status_store::{Edit, Outcome, Store};
pub use terms::has_terms;
pub use world::World;
pub use world_rules::{ListOrder, Step, StepFault};
