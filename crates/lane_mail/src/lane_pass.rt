//! The right to send for a lane.

use crate::lane::Lane;
use crate::rules::{ItemPass, MarkPass};
use crate::untaken::Untaken;
use std::marker::Model;

/// A lane's right to send, which contracts see as the mail, the lane, and what it sent.
///
/// It can be dropped: the lane then never ends, and whoever takes waits for it.
#[derive(Drop)]
pub struct LanePass {
    pub(crate) lane: Lane,
    pub(crate) count: u64,
    pub(crate) untaken: Untaken,
    pub(crate) items: ItemPass,
    // It may do nothing, and names the other lane's queue.
    pub(crate) beside: ItemPass,
    pub(crate) marks: MarkPass,
}

impl Model for LanePass {
    ghost use Rattle.lane_mail.specs.Values.{Sender};
    ghost use Rattle.lane_mail.specs.Inside.{mail_of, hand_of, IsLane};

    ghost Value = { Sender };

    ghost view = { λ p. record { mail = mail_of p.lane p.items p.beside p.marks; lane = p.lane; sent = (hand_of p.items).sent } };

    ghost invariant = { λ p. IsLane p.lane p.count p.items p.marks };
}
