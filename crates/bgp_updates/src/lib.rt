//! Tables of BGP routes, and the UPDATE messages between them (RFC 4271, section 4.3).
//!
//! Routes are of IPv4 and of IPv6 (RFC 4760), and AS numbers have four octets (RFC 6793).
#![tactic(auto)]

mod finding;
mod grouping;
mod laws;
mod octets;
mod pack;
mod part;
mod prefix;
mod route;
mod updating;
mod writing;

pub use laws::{
    hops_are_of_routes, messages_fit, messages_give_the_table, messages_name_what_differs,
    one_family_alone, parts_tell_all,
};
pub use pack::part_octets;
pub use part::Part;
pub use prefix::is_before;
pub use route::{MessageList, Peering, Route, RouteTable, Terms};
pub use updating::updates;
pub use writing::{announced_part, message_octets, prefix_octets, withdrawn_part};
