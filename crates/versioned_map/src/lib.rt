//! Objects by key, each held at the version that it was last shown with.
#![tactic(auto)]

mod map;

pub use map::{Shown, Versioned, VersionedMap};
