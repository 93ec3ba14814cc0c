//! What was taken of one lane.
ghost use Rattle.std.specs.Prelude.{◌≡◌, ◌^◌, ◌≤◌, length, None, MatchOption, IfSome};

use crate::item::Item;
use crate::lane::Lane;
use crate::rules::{Get, ItemPass, Items};
use std::marker::Model;
use std::sync::Wait;

/// The right to take of a lane, which contracts see as the lane's queue, the lane, what was taken
/// of it, and how many items of the other lane had been taken when it was last found empty.
#[derive(Drop)]
pub(crate) struct LaneInbox {
    pub(crate) lane: Lane,
    pub(crate) count: u64,
    pub(crate) items: ItemPass,
    // `pop` alone writes it, and contracts alone read it: they see by it that the lane wasn't skipped without a look.
    empty: Option<u64>,
}

impl Model for LaneInbox {
    ghost use Rattle.lane_mail.specs.Values.{LaneReceiver};
    ghost use Rattle.lane_mail.specs.Inside.{queue_of, hand_of, IsLaneInbox};

    ghost Value = { LaneReceiver };

    ghost view = { λ p. record { queue = queue_of p.items; lane = p.lane; taken = (hand_of p.items).got; empty = p.empty } };

    ghost invariant = { λ p. IsLaneInbox p.lane p.count p.items };
}

impl LaneInbox {
    ghost use Rattle.lane_mail.specs.Inside.{queue_of, hand_of, IsLaneInbox};
    ghost use Rattle.lane_mail.specs.Values.{got_more, found_empty};

    /// Of a lane of which nothing was taken.
    pub(crate) fn new(lane: Lane, items: ItemPass) -> LaneInbox
        requires { IsLaneInbox lane 0 items }
        ensures { result ≡ record { queue = queue_of items; lane = lane; taken = (hand_of items).got; empty = None } }
    {
        LaneInbox {
            lane,
            count: 0,
            items,
            empty: None,
        }
    }

    /// How many items were taken.
    pub(crate) fn count(&self) -> u64
        ensures { result ≡ length self.now.taken }
    {
        self.count
    }

    /// The next item of the lane, if its queue holds one. `other` is the other lane's inbox.
    pub(crate) fn pop<R: Wait>(&mut self, rt: &R, queue: &Items, other: &LaneInbox) -> Option<Item>
        requires { self.old.queue ≡ queue.now }
        ensures pass { MatchOption result (self.new ≡ found_empty self.old (length other.now.taken))
            (λ item. self.new ≡ got_more self.old item) }
        ensures lane { IfSome result (λ item. item.lane ≡ self.old.lane) }
        ensures few { IfSome result (λ _. length self.new.taken ≤ 2 ^ 61) }
    {
        let Some(item) = queue.pop_as::<Get, R>(rt, &mut self.items) else {
            self.empty = Some(other.count());
            return None;
        };
        self.count += 1;
        Some(item)
    }
}
