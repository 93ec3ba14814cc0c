//! What lines are read as, and the lines that say so: how whoever feeds the programs finds the
//! field that stops them.
#![tactic(auto)]

mod explained;
mod laws;
mod line;
mod unused;

pub use explained::{Explained, explain};
pub use laws::unused_members_are_unread;
pub use line::explained_line;
