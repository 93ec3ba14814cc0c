//! Histories of real clusters, written out, each of which some world explains: so what is said of
//! every world that explains a run is said of them. They pin from outside how wide worlds are.
#![tactic(auto)]

mod laws;

pub use laws::{further_histories, histories_are_explained, histories_are_seen};
