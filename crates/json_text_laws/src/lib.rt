//! The texts in a JSON value that is read of a line.
#![tactic(auto)]

mod laws;

pub use laws::{text_maps_are_labels, values_have_texts};
