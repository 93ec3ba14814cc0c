//! What holds of every run of the core.
#![tactic(auto)]

mod laws;

pub use laws::{
    awaiting_is_shown, chosen_is_served, expired_is_both, puts_are_right, queues_are_orderly,
    runs_are_certain, runs_are_quiet, runs_are_quiet_as_shown, runs_are_shared, runs_are_sound,
    services_are_claimed, services_wait_in_vain, settled_are_served, turns_are_of_free_keys,
    turns_are_of_ready_cores, what_is_told_is_right,
};
