//! A trial of the world: steps that are drawn from a seed, edits of services and moves of the
//! controller among them, and what is stored in the end.
#![tactic(auto)]

mod begun;
mod drawn;
mod draws;
mod laws;
mod made;
mod records;
mod report;
mod service;
mod text;
mod trials;

pub use laws::first_draws;
pub use report::{RecordLines, TrialReport};
pub use text::report_text;
pub use trials::trial;
