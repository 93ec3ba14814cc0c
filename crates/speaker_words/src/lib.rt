//! The words of the speaker's command line.
#![tactic(auto)]

mod interface;
mod words;

pub use command_options::LaneFiles;
pub use interface::InterfaceWord;
pub use words::{InterfaceWords, SpeakerWords, speaker_words};
