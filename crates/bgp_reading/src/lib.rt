//! UPDATE messages of BGP for IPv4 and for IPv6, read (RFC 4271, section 4.3; RFC 4760; RFC 8092).
#![tactic(auto)]

mod attributes;
mod forms;
mod laws;
mod octets;
mod parts;
mod prefixes;
mod reading;
mod spelling;

pub use laws::{
    messages_are_computed, messages_say_one_thing, tables_are_received, updates_are_received,
};
pub use parts::{UpdateFault, UpdateParts};
pub use reading::read_update;
