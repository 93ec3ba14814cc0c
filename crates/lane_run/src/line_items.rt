//! The item of a line, and the one that is sent for it.
ghost use Rattle.std.specs.Prelude.{◌≡◌, Some, IfOk, IfErr, OnErr};
ghost use Rattle.lane_run.specs.LaneInputs.{item_in};
ghost use Rattle.lane_run.specs.Steps.{IsUnsent};
ghost use Rattle.lane_run.specs.Turned.{TurnsItem};

use crate::lane_end::LaneEnd;
use crate::lanes::Lanes;
use crate::turner::Turner;
use kube_events::read_event;
use kube_model::EventFault;
use lane_mail::{Item, Lane};
use mlb_edge::Line;
use std::alloc::Global;

/// Reads the line as an event that came by the lane.
pub(crate) fn item_of_line<L: Lanes>(alloc: Global, lane: Lane, line: Line) -> Result<Item, LaneEnd>
    ensures ok { IfOk result (λ item. item_in L.belongs lane line ≡ Some item) }
    ensures err { IfErr result (λ end. IsUnsent L.belongs lane line end) }
{
    let event = match read_event(alloc, line.bytes.as_slice()) {
        Ok(event) => event,
        Err(EventFault::NoMemory) => {
            drop(line);
            return Err(LaneEnd::NoMemory);
        }
        Err(_) => return Err(bad_line(line)),
    };
    if !L::belongs(lane, &event) {
        drop(event);
        return Err(bad_line(line));
    }
    let number = line.number;
    drop(line);
    Ok(Item {
        lane,
        number,
        event,
    })
}

/// The end of a lane at a line that it may not carry.
fn bad_line(line: Line) -> LaneEnd
    ensures { result ≡ LaneEnd.BadLine line.number line.bytes }
{
    let Line { number, bytes } = line;
    LaneEnd::BadLine { number, bytes }
}

/// Turns the item into the one that is sent for it.
pub(crate) fn turn_item<T: Turner>(
    alloc: Global,
    turner: &mut T,
    item: Item,
) -> Result<Item, LaneEnd>
    ensures ok { IfOk result (λ sent. TurnsItem T.Turns (T.state turner.old)
        (T.state turner.new) item sent) }
    ensures err { IfErr result (λ end. end ≡ LaneEnd.NoMemory) }
    ensures same { OnErr result (T.state turner.new ≡ T.state turner.old) }
{
    let Item {
        lane,
        number,
        event,
    } = item;
    match turner.turn(alloc, event) {
        Ok(event) => Ok(Item {
            lane,
            number,
            event,
        }),
        Err(_) => Err(LaneEnd::NoMemory),
    }
}
