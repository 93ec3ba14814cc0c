//! The views that lines lead to, and what of them can be told in messages.
#![tactic(auto)]

mod laws;

pub use laws::{routes_can_be_told, shown_views_are_numbered};
