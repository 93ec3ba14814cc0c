//! The services that lines show: their terms, and their families.
#![tactic(auto)]

mod laws;

pub use laws::{events_show_terms, services_have_terms};
