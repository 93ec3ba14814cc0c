//! What a speaker sees of a cluster: what is held of it, and which speakers are active.
//!
//! A view is made without memory, and so is never refused. Nodes and interfaces are given as
//! `&Text` where something is looked up by them, and as `&str` elsewhere. The services of a view
//! are the map that holds them, by key, since a list of them would have to be made.
//!
//! A view refuses an event as the cache does, so its fault is the cache's own.
#![tactic(auto)]

mod change;
mod endpoints;
mod index;
mod laws;
mod nodes;
mod view;

pub use change::ViewChange;
pub use laws::{
    found_by_index, index_covers_on, unchanged_addresses_stay, view_limits_are_exact,
    views_are_as_shown,
};
pub use nodes::name_set;
pub use object_cache::ApplyFault as ViewFault;
pub use view::View;
