//! A lane that has ended.

use crate::lane::Lane;
use crate::rules::{ItemPass, MarkPass};
use std::marker::Model;

/// What is left of a lane's right once its end mark is put: contracts see the mail, the lane, and
/// all that it sent.
#[derive(Drop)]
pub struct LaneDone {
    pub(crate) lane: Lane,
    pub(crate) items: ItemPass,
    // It may do nothing, and names the other lane's queue.
    pub(crate) beside: ItemPass,
    pub(crate) marks: MarkPass,
}

impl Model for LaneDone {
    ghost use Rattle.lane_mail.specs.Values.{Sender};
    ghost use Rattle.lane_mail.specs.Inside.{mail_of, hand_of, IsDone};

    ghost Value = { Sender };

    ghost view = { λ p. record { mail = mail_of p.lane p.items p.beside p.marks; lane = p.lane; sent = (hand_of p.items).sent } };

    ghost invariant = { λ p. IsDone p.lane p.items p.marks };
}
