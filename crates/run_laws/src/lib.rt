//! What holds of several runs of the controller one after the other.
#![tactic(auto)]

mod laws;

pub use laws::chained_runs_are_safe;
