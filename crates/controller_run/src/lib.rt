//! What the controller does with the words of its command line: a run over one stream, or over two
//! lane files, or a trial.
#![tactic(auto)]

mod controller;
mod events;
mod lane_files;
mod lanes;
mod line;
mod output;
mod run;
mod stream;
mod trial;
mod turns;

pub use run::run_controller;
pub use stream::stream_controller;
