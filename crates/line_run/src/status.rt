//! The status where no more lines can be read, or where a line isn't taken.
ghost use Rattle.std.specs.Prelude.{◌≡◌, ◌⊎◌};
ghost use Rattle.line_run.specs.Ended.{status_of_end, status_of_refusal};

use crate::halt::{Halt, Refusal};
use crate::machine::Machine;
use kube_model::{LaneName, Status, What};
use mlb_edge::{INPUT_LIMIT, LINE_LIMIT, LineEnd};

/// The status of a refusal to read a line.
pub(crate) fn status_of_end(end: LineEnd) -> Status
    ensures { result ≡ status_of_end end }
{
    match end {
        LineEnd::ReadFault => Status::ReadFault {
            lane: LaneName::Input,
        },
        LineEnd::LineLimit { .. } => Status::Limit {
            what: What::Line,
            count: LINE_LIMIT as u64 + 1,
        },
        LineEnd::InputLimit => Status::Limit {
            what: What::Input,
            count: INPUT_LIMIT + 1,
        },
        LineEnd::NoMemory => Status::NoMemory,
    }
}

/// The status that a run stops with where a line isn't taken.
pub fn status_of_refusal(refusal: Refusal) -> Status
    ensures { result ≡ status_of_refusal refusal }
{
    match refusal {
        Refusal::Stopped { status } => status,
        Refusal::Halted {
            halt: Halt::WriteFault,
        } => Status::WriteFault,
        Refusal::Halted {
            halt: Halt::NoMemory,
        } => Status::NoMemory,
    }
}

/// The status where no line is left.
pub(crate) fn status_at_end<M: Machine>(machine: &M) -> Status
    ensures { (result ≡ M.rules.end (M.state machine.now)) ⊎ (result ≡ Status.NoMemory) }
{
    match machine.end() {
        Ok(status) => status,
        Err(_) => Status::NoMemory,
    }
}
