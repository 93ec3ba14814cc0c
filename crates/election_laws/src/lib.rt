//! Laws that pin the election of the announcing node from outside, by digests written out. Each is
//! the contract of a function that does nothing.
#![tactic(auto)]

mod laws;

pub use laws::digests_are_those_written_out;
