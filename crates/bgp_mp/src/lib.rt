//! Routes of IPv4 and IPv6 with large communities, and the UPDATE messages that tell them (RFC
//! 4271, RFC 4760, RFC 8092): what the crates below make, under names of its own, and the law that
//! joins them.
#![tactic(auto)]

mod laws;

pub use bgp_reading::{
    UpdateFault as MpFault, UpdateParts as MpParts, read_update as read_mp_update,
};
pub use bgp_routes::routes as mp_routes;
pub use bgp_updates::{
    MessageList, Route as MpRoute, RouteTable as MpTable, updates as mp_updates,
};
pub use large_numbers::{LargeCommunity, LargeNumbers};
pub use laws::messages_make_tables;
