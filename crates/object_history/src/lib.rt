//! What is held of a cluster after all that was observed, and what a look back over it shows.
#![tactic(auto)]

mod laws;

pub use laws::{holds_what_was_shown, versions_are_last_shown};
