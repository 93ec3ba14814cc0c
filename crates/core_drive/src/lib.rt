//! The drive of a core: what arrives, with the turns that follow, as a transcript.
#![tactic(auto)]

mod laws;

pub use laws::{drives_are_sound, what_arrives_goes_on};
