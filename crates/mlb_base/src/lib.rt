//! What every crate of the workspace stands on: running out of memory, copies that may find none,
//! and lists.
//!
//! It lies below all crates. There is one list type, `Sequence`, of which every list type is an
//! alias.
#![tactic(auto)]

mod memory;
mod sequence;

pub use memory::{NoMemory, TryCopy};
pub use sequence::{ByteList, Sequence};
