//! Large communities of BGP (RFC 8092), and ascending lists of them.
#![tactic(auto)]

mod numbers;

pub use numbers::{LargeCommunity, LargeNumbers, larges_from};
