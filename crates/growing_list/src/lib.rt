//! A list that only grows, which stands in proofs alone. What threads carry are beginnings of it:
//! of any two of these one begins the other.
//!
//! It has one owner, who adds entries. A beginning is a number when it runs; that its entries are
//! the list's is known by a rule over the number of all entries, of which the owner has the word.
//!
//! The appended events are a list that only grows, whose number stands in a word; a token is a
//! beginning of it. Of any two tokens of one board one begins the other, as their lengths say, so
//! `learn` and the comparison of two tokens take no memory and have no condition. A type parameter
//! names the board and the class of its view; `left_right` alone couldn't say that what a reader
//! sees later begins with what it saw before.
#![tactic(auto)]

mod beginning;
mod grower;
mod rule;

pub use beginning::Beginning;
pub use grower::{Grower, Opened};
pub use rule::Naming;
