//! The run of a machine over the lines of a source.
//!
//! What a line and the end of the input are to a machine is the machine's own. The reading of
//! lines, the order of reasons to stop and what stands written at each of them is said and proved
//! here, once for all machines.
//!
//! The input of both programs may be a source that gives the next line only once it has seen what
//! came of those before (`PacedSource`). When it may be asked is a premise of the top calls and no
//! test at run time: what is only a source, as the real one, may be asked at any time.
#![tactic(auto)]

mod halt;
mod machine;
mod paced;
mod run;
mod status;
mod step;
mod write;

pub use halt::{Halt, Refusal};
pub use machine::Machine;
pub use paced::PacedSource;
pub use run::run_machine;
pub use status::status_of_refusal;
pub use step::next_step;
pub use write::write_line;
