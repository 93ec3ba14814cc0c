//! Any number of controllers over one store, one of which at most has puts that can still be
//! carried out.
#![tactic(auto)]

mod laws;

pub use laws::{
    clusters_are_safe, clusters_go_on, late_requests_are_admitted, runs_are_safe_among_others,
    wrong_steps_are_refused,
};
