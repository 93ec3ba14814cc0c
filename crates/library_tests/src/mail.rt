//! The mail of two lanes.

mod room;
mod shared;
mod steps;
