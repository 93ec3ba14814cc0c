//! Laws that pin frames from outside: frames written out by hand, the checksum of RFC 1071 as a
//! plain sum, and RFC 4861, section 7.1.2 by the places of octets. Each is the contract of a
//! function that does nothing.
#![tactic(auto)]

mod laws;

pub use laws::{advertisements_are_valid, checksums_are_plain_sums, frames_are_those_written_out};
