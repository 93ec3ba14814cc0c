//! What holds of every run of the speaker, and of every view.
#![tactic(auto)]

mod laws;

pub use laws::{
    all_send_what_is_meant, answers_are_for_what_stands, lanes_are_right,
    lines_tell_what_is_announced, peers_hear_their_routes, runs_are_right,
};
