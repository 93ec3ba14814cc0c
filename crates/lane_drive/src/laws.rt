//! What the items of lanes are.
ghost use Rattle.lane_drive.specs.Laws.{ItemsAreRead};

use lane_run::Lanes;

/// Each item that is taken is the event of a line that may come by its lane.
pub fn items_are_read<L: Lanes>()
    ensures { ItemsAreRead L.belongs }
{}
