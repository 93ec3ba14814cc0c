//! The lines that are written, and the replies that are read.
//!
//! What is told of lines are values of JSON, and their text is what the kit says that such a
//! value's compact text is; no second text stands beside it.
#![tactic(auto)]

mod laws;
mod lines;
mod reply;

pub use laws::lines_are_read;
pub use lines::{
    accepted_line, announce_line, object_value, pending_line, put_line, record_line, refused_line,
    seen_line, send_line, took_line, trial_line, update_line, withdraw_line,
};
pub use reply::{ReplyFault, read_reply};
