//! Laws that pin prefixes from outside, by the first bits of addresses. Each is the contract of a
//! function that does nothing.
#![tactic(auto)]

mod laws;

pub use laws::{masked_is_the_one_prefix, prefixes_hold_what_begins_so};
