//! The right to take.
ghost use Rattle.std.specs.Prelude.{◌≡◌, ◌↔◌, length, IsTrue};

use crate::lane::Lane;
use crate::lane_inbox::LaneInbox;
use crate::rules::MarkPass;
use std::marker::Model;

/// The right to take, which contracts see as the mail, what was taken of each lane, the counts of
/// the end marks that came, whose turn it is, and when each lane was last found empty.
#[derive(Drop)]
pub struct InboxPass {
    pub(crate) first: LaneInbox,
    pub(crate) second: LaneInbox,
    pub(crate) marks: MarkPass,
    pub(crate) first_end: Option<u64>,
    pub(crate) second_end: Option<u64>,
    pub(crate) next: Lane,
}

impl Model for InboxPass {
    ghost use Rattle.lane_mail.specs.Values.{Receiver};
    ghost use Rattle.lane_mail.specs.Inside.{IsInbox};

    ghost Value = { Receiver };

    ghost view = { λ p. record {
      mail = record { first = p.first.queue; second = p.second.queue; table = p.marks.table_id };
      first = p.first.taken;
      second = p.second.taken;
      first_end = p.first_end;
      second_end = p.second_end;
      next = p.next;
      first_empty = p.first.empty;
      second_empty = p.second.empty;
    } };

    ghost invariant = { λ p. IsInbox p.first p.second p.marks p.first_end p.second_end };
}

impl InboxPass {
    ghost use Rattle.lane_mail.specs.Values.{HasAll, taken_of};

    pub(crate) fn has_all(&self) -> bool
        ensures { IsTrue result ↔ HasAll self.now }
    {
        self.first_end == Some(self.first.count()) && self.second_end == Some(self.second.count())
    }

    // How many items of the lane were taken.
    pub(crate) fn count_of(&self, lane: Lane) -> u64
        ensures { result ≡ length (taken_of lane self.now) }
    {
        match lane {
            Lane::First => self.first.count(),
            Lane::Second => self.second.count(),
        }
    }
}
