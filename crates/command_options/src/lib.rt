//! The options of a command line, each with a value.
#![tactic(auto)]

mod lanes;
mod laws;
mod options;
mod taking;

pub use lanes::{GivenLanes, LaneFiles, lane_files};
pub use laws::options_are_read;
pub use options::{FirstOption, first_option};
pub use taking::{TakesOptions, once_text, taken_options};
