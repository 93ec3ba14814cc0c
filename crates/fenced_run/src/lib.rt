//! The controller behind a fence: a run over one stream, in which any number of controllers may run
//! at once. Its puts are requests that its fence makes, and what it hears of them is what the fence
//! replies.
#![tactic(auto)]

mod controller;
mod line;
mod output;
mod run;
mod tell;
mod turns;
mod words;

pub use run::run_fenced;
pub use words::asks_for_fence;
