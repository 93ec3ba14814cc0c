//! What the programs read and write alike: the event of a line, a line that is no reply, and what
//! is told of a configuration.
#![tactic(auto)]

mod event;
mod note;
mod reply;

pub use event::event_of_line;
pub use note::write_note;
pub use reply::bad_reply;
