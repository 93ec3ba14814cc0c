//! Sets of keys by group.
#![tactic(auto)]

mod grouped;

pub use grouped::GroupedKeys;
