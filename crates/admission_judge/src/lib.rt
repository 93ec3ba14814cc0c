//! Whether a change of a configuration may be made: where the objects that are held compile with
//! it.
#![tactic(auto)]

mod held;
mod judging;

pub use held::hold;
pub use judging::judge;
