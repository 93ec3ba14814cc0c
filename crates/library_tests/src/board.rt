//! A sum on a board: numbers that are pending aren't seen, what was told of is, and a responder
//! answers beside the writer.

mod sum;

pub use sum::{AskTotal, Sum};

#[cfg(test)]
mod beginnings;
#[cfg(test)]
mod beside;
#[cfg(test)]
mod pending;
