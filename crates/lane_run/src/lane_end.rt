//! How a lane ends.
ghost use Rattle.std.specs.Prelude.{◌≡◌};
ghost use Rattle.lane_run.specs.LaneInputs.{end_of};

use mlb_base::ByteList;
use mlb_edge::LineEnd;

/// How a lane ended. Lines are numbered from 1.
#[derive(Drop)]
pub enum LaneEnd {
    /// The input is at its end, and the events of all its lines were sent.
    Done,
    /// The source failed.
    ReadFault,
    /// The next line, which has this number, has more than 1,048,576 bytes.
    LineLimit { number: u64 },
    /// The next line isn't too long, and ends past the first 2^40 bytes of the source.
    InputLimit,
    /// The next line is no event that may come by the lane.
    BadLine { number: u64, bytes: ByteList },
    NoMemory,
}

/// How a lane ends where its next line can't be read.
pub(crate) fn end_of(end: LineEnd) -> LaneEnd
    ensures { result ≡ end_of end }
{
    match end {
        LineEnd::ReadFault => LaneEnd::ReadFault,
        LineEnd::LineLimit { number } => LaneEnd::LineLimit { number },
        LineEnd::InputLimit => LaneEnd::InputLimit,
        LineEnd::NoMemory => LaneEnd::NoMemory,
    }
}
