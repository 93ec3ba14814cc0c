//! What a lane carries.
ghost use Rattle.lane_run.specs.Laws.{LanesStopFirst};

use crate::lanes::Lanes;

/// The items of a lane are those of its lines, one for one, up to the first line that is no event
/// of the lane.
pub fn lanes_stop_first<L: Lanes>()
    ensures { LanesStopFirst L.belongs }
{}
