//! The addresses that a node announces, and how they change.
//!
//! The speaker forgets the set of announced addresses where an event is refused or memory runs out,
//! and makes it anew for the next one.
#![tactic(auto)]

mod changes;
mod laws;

pub use changes::{AddressChanges, renew_announcers};
pub use laws::all_are_announced;
