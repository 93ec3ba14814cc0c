//! What both lanes sent.

use crate::rules::ItemPass;
use std::marker::Model;

/// What each lane sent, which contracts see as two lists. It holds nothing when it runs.
#[derive(Drop)]
pub struct Lists {
    pub(crate) first: ItemPass,
    pub(crate) second: ItemPass,
}

impl Model for Lists {
    ghost use Rattle.lane_mail.specs.Values.{TwoLists};
    ghost use Rattle.lane_mail.specs.Inside.{hand_of};

    ghost Value = { TwoLists };

    ghost view = { λ p. record { first = (hand_of p.first).got; second = (hand_of p.second).got } };
}
