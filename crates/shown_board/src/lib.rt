//! A value that one thread changes by events and another reads with no lock and no wait. What is
//! read is the value after a beginning of the events, which never gets shorter, and is no shorter
//! than any that the reader was told of.
//!
//! The writer holds two copies of the value: readers see the one, and events are applied to the
//! other until a publication swaps them.
//!
//! What is published is a view with the beginning whose view it is: its type keeps that. A
//! responder whose beginning would be shorter than what it saw or was told of answers `None`; that
//! doesn't happen, and no clause excludes it.
//!
//! An event that passes a limit of the view can be appended, and makes each later `publish` answer
//! `NoMemory`: whoever appends it asks a view of its own first. After an append that was refused
//! each later one may be.
#![tactic(auto)]

mod beside;
mod follower;
mod posted;
mod responder;
mod writer;

pub use beside::{answer_all, answer_beside, publish_all};
pub use follower::{Follower, Question, Reply};
pub use growing_list::{Beginning, Naming, Opened};
pub use posted::{Post, Posted, Step};
pub use responder::Responder;
pub use writer::{AppendBack, BoardWriter, board};
