//! Laws that pin UPDATE messages from outside: messages written out by hand, and a reader of path
//! attributes by RFC 4271, section 4.3 alone. Each is the contract of a function that does nothing.
#![tactic(auto)]

mod laws;

pub use laws::{
    ipv6_messages_are_those_written_out, large_communities_are_those_written_out,
    messages_are_read, messages_are_those_written_out,
};
