//! The world of a controller: a store that others edit, what of it is still to be shown, and a core
//! that may stop.
#![tactic(auto)]

mod laws;
mod step;

pub use laws::{
    chains_are_safe, late_puts_are_expected, runs_are_safe_in_worlds, safe_without_clash,
    seen_are_explained, steps_are_moves, worlds_are_in_order, worlds_are_safe,
    worlds_explain_themselves,
};
pub use step::{ListOrder, Step, StepFault};
