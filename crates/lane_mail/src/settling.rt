//! A lane that has ended, of which all was taken.
ghost use Rattle.std.specs.Prelude.{◌≡◌, true, [], ◌∷◌, length};
ghost use Rattle.crossbeam_queue.specs.Passes.{view, IsPassOf, IsSamePass};
ghost use Rattle.lane_mail.specs.Inside.{hand_of, mark};
ghost use Rattle.lane_mail.specs.Lanes.{mark_lane, of_lane};
ghost use Rattle.lane_mail.specs.Values.{lane_queue};

use crate::lane_done::LaneDone;
use crate::lane_inbox::LaneInbox;
use crate::rules::{Gather, ItemPass, Items, MarkPass, Marks, Whole};
use std::sync::Wait;

/// Takes in what is left of the lane: what was taken of it is what it sent. `ends` is the inbox's
/// pass of the marks.
pub(crate) fn settle<R: Wait>(
    rt: &R,
    queue: &Items,
    inbox: LaneInbox,
    marks: &Marks,
    ends: &mut MarkPass,
    done: LaneDone,
) -> ItemPass
    requires lane { done.lane ≡ inbox.lane }
    requires queue { (inbox.queue ≡ queue.now) × (lane_queue done.lane done.mail ≡ queue.now) }
    requires marks { IsPassOf marks.now ends.old × (done.mail.table ≡ ends.old.table_id) }
    requires takes { (view ends.old).takes ≡ true }
    requires ended { of_lane mark_lane inbox.lane (view ends.old).got
        ≡ mark inbox.lane (length inbox.taken) ∷ [] }
    ensures sent { inbox.taken ≡ done.sent }
    ensures taken { (hand_of result).got ≡ done.sent }
    ensures marks { IsSamePass ends.old ends.new }
    ensures takes { (view ends.new).takes ≡ true }
    ensures ends { (view ends.new).got ≡ (view ends.old).got }
{
    let LaneInbox {
        items: mut taken,
        ..
    } = inbox;
    queue.absorb::<Gather>(&mut taken, done.items);
    queue.len_as::<Whole, R>(rt, &mut taken);
    marks.absorb::<Gather>(ends, done.marks);
    marks.learn_as::<Whole>(ends);
    taken
}
