//! What the controller's core is, what each event, turn and reply makes of it, and what holds of
//! every run.
#![tactic(auto)]

mod laws;
mod turn;

pub use laws::{claims_are_shown, core_holds_what_was_observed};
pub use turn::{TakeFault, Turn};
