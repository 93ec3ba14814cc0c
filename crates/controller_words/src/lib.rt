//! The words of the controller's command line.
#![tactic(auto)]

mod laws;
mod numbers;
mod words;

pub use command_options::LaneFiles;
pub use laws::{lanes_are_said, runs_are_said, trials_are_said};
pub use words::{Asked, controller_words};
