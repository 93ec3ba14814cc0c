//! The runs of the speaker: over the lines of one stream, and over two lane files, where a
//! responder may answer the frames beside it.
#![tactic(auto)]

mod beside;
mod responder;
mod run;
mod shown;
mod standing;
mod stream;

pub use run::run_speaker;
pub use stream::stream_speaker;
