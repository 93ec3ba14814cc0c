//! What each program takes of its process, and how it ends: the words of its command line, the
//! files of the system, and its exit status.
#![tactic(auto)]

mod exit;
mod given;
mod owned;
mod words;

pub use exit::exit_code;
pub use given::{Given, given_by};
pub use owned::owned_word;
pub use words::words_given;
