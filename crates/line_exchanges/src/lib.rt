//! What a controller reads and writes, line by line, and the worlds in which that is seen: what its
//! users must believe of a run, without its core.
#![tactic(auto)]

mod laws;

pub use laws::put_lines_say_one;
