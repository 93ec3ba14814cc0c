//! What fences do in a cluster of any number of controllers.
#![tactic(auto)]

mod laws;

pub use laws::{fence_follows, fences_are_safe, fences_go_on, gone_puts_are_held_back};
