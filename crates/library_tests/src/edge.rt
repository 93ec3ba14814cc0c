//! Lines.

mod lines;
