//! The events and objects that are read of JSON.
#![tactic(auto)]

mod bgp_fields;
mod community_fields;
mod fields;
mod frame;
mod l2_fields;
mod members;
mod named;
mod object_fields;
mod peer_fields;
mod pool_fields;
mod reading;
mod service_fields;
mod slice_fields;
mod wanted;

pub use object_fields::read_object;
pub use reading::read_event;
