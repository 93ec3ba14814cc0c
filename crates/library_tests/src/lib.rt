//! What neither a clause nor a worked row says of libraries. This crate has tests alone.
#![tactic(auto)]

pub mod board;
#[cfg(test)]
mod edge;
#[cfg(test)]
mod mail;
