//! The lines by which a fence is told something, and those that it writes.
#![tactic(auto)]

mod input;
mod output;

pub use input::read_input;
pub use output::output_line;
