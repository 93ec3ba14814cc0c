//! The speaker as a machine: over the lines of one stream, and over the items of two lanes.
#![tactic(auto)]

mod changes;
mod events;
mod lanes;
mod local_node;
mod output;
mod peers;
mod sends;
mod speaker;
mod transcript;

pub use events::apply_event;
pub use lanes::{name_of, write_item};
pub use local_node::{Interface, LocalNode, NextHops};
pub use output::write_sent;
pub use speaker::Speaker;
pub use transcript::TranscriptEntry;
