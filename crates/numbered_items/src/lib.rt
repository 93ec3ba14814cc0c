//! Items that are numbered as they come, and indexes of their numbers.
#![tactic(auto)]

mod inverted_index;
mod numbered_list;
mod term_numbers;

pub use inverted_index::InvertedIndex;
pub use numbered_list::NumberedList;
