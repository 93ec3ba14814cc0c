//! What the admission tool does with the words of its command line: it says of reviews of a
//! configuration's objects whether their changes may be made, or of any lines what they are read
//! as.
//!
//! The admission tool has one machine for both of its works, whose state says which one it does, so
//! that its top call has one set of clauses.
#![tactic(auto)]

mod line;
mod run;
mod tool;
mod work;

pub use run::run_admit;
