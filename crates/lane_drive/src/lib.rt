//! A run over two lane files: a machine is driven by their items, and by the replies to what it
//! writes.
//!
//! The machine is the program's own. What it is driven by, what is written, and how the run ends is
//! said and proved here, once for all programs.
//!
//! Clauses on lanes speak of lists of items that there are, since the order in which two threads
//! send isn't the files'.
#![tactic(auto)]

mod driver;
mod files;
mod hearing;
mod lane_machine;
mod laws;
mod opened;
mod replies;
mod status;
mod took;
mod turned_files;

pub use files::run_lane_files;
pub use lane_machine::LaneMachine;
pub use laws::items_are_read;
pub use took::write_took;
pub use turned_files::run_turned_files;
