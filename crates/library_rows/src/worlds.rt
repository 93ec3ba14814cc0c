//! Worlds, step by step.

mod case;
mod crashes;
mod judged;
mod steps;
mod stored;

pub use case::Case;
