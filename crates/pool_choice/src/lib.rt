//! Which services a pool serves, and which pools serve a service that asks for none, in which
//! order.
#![tactic(auto)]

mod choice;
mod serving;

pub use choice::{PoolIndexes, eligible};
pub use serving::serves;
