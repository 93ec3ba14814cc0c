//! Laws that pin the choice of addresses from outside, for a service that may have all its families
//! or one of two: when it waits, what it keeps, and which families a new record is of. Each is the
//! contract of a function that does nothing.
#![tactic(auto)]

mod laws;

pub use laws::{exhausted_is_full, kept_is_whole, new_is_of_the_first_option, options_are};
