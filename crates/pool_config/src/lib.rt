//! The configuration: its objects, and what they are compiled to.
//!
//! The name of an object is the key that it is held under. `ObjectSet::remove` takes a `Text`,
//! since a map with such keys can't be asked by `&str`, and `set` skips objects of other
//! kinds.
#![tactic(auto)]

mod advertised;
mod bounds;
mod choice;
mod clashes;
mod communities;
mod compile_objects;
mod compiled;
mod config;
mod first_fault;
mod large;
mod laws;
mod numbers;
mod object_set;
mod overlap;
mod pool_faults;
mod preferences;
mod reading;
mod search;
mod selector_faults;
mod span_index;

pub use choice::{ChoosesPools, SelectsNodes};
pub use compile_objects::{CompileFault, compile};
pub use compiled::{
    BgpList, CompiledAllocation, CompiledBgp, CompiledL2, CompiledPeer, CompiledPool, L2List,
    PeerList, PoolList,
};
pub use config::Config;
pub use large::read_large;
pub use large_numbers::{LargeCommunity, LargeNumbers};
pub use laws::{
    accepted_are_read_whole, communities_are_read, larges_are_read, names_are_kept,
    numbers_are_read, objects_are_compiled, removes_take_out, sets_put_in_place,
};
pub use numbers::{CommunityNumbers, numbers_from, read_number};
pub use object_set::ObjectSet;
