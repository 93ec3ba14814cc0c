//! What holds of every event that a line is read as.
#![tactic(auto)]

mod laws;

pub use laws::lines_show_numbers;
