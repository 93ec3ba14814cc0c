//! The statuses of what stops a run over lanes.
ghost use Rattle.std.specs.Prelude.{◌≡◌, ◌≢◌, IsTrue};
ghost use Rattle.lane_drive.specs.Stops.{status_of_lane, status_of_lanes};

use crate::lane_machine::LaneMachine;
use kube_model::{LaneName, Status, What};
use lane_mail::Lane;
use lane_run::LaneEnd;
use mlb_edge::{INPUT_LIMIT, LINE_LIMIT};

/// The status of a lane that ended so.
fn status_of_lane(name: LaneName, end: LaneEnd) -> Status
    ensures { result ≡ status_of_lane name end }
{
    match end {
        LaneEnd::Done => Status::Done,
        LaneEnd::ReadFault => Status::ReadFault { lane: name },
        LaneEnd::LineLimit { .. } => Status::Limit {
            what: What::Line,
            count: LINE_LIMIT as u64 + 1,
        },
        LaneEnd::InputLimit => Status::Limit {
            what: What::Input,
            count: INPUT_LIMIT + 1,
        },
        LaneEnd::BadLine { number, bytes } => Status::BadLine {
            lane: name,
            number,
            bytes,
        },
        LaneEnd::NoMemory => Status::NoMemory,
    }
}

/// Whether neither lane ended where memory ran out.
pub(crate) fn are_known(first: &LaneEnd, second: &LaneEnd) -> bool
    ensures { IsTrue result → (first.now ≢ LaneEnd.NoMemory) × (second.now ≢ LaneEnd.NoMemory) }
{
    !matches!(first, LaneEnd::NoMemory) && !matches!(second, LaneEnd::NoMemory)
}

/// The status of both lanes' ends: that of the first, unless it is done.
pub(crate) fn status_of_lanes<M: LaneMachine>(first: LaneEnd, second: LaneEnd) -> Status
    ensures { result ≡ status_of_lanes M.rules.name first second }
{
    match first {
        LaneEnd::Done => status_of_lane(M::lane_name(Lane::Second), second),
        ill => {
            drop(second);
            status_of_lane(M::lane_name(Lane::First), ill)
        }
    }
}
