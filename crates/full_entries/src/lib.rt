//! The claims, and which entries of pools they leave no address of.
#![tactic(auto)]

mod entries;
mod entry_claims;
mod order;

pub use entry_claims::EntryClaims;
