//! A frame that an interface received, and its answer.

use crate::elected_view::{Classed, ElectedView};
use neigh_frames::{arp_answer_known, ndp_answer_known};
use shown_board::Question;

/// What is sent back.
#[derive(Clone, Copy, Drop)]
pub enum Answer {
    /// An Ethernet frame with an ARP reply (RFC 826).
    Arp { bytes: [u8; 42] },
    /// An Ethernet frame with a neighbor advertisement (RFC 4861).
    Ndp { bytes: [u8; 86] },
    /// Nothing.
    Silent,
}

/// A frame, with the interface of the node that received it, and that interface's hardware address.
#[derive(Clone, Copy, Drop)]
pub(crate) struct Asked<'a> {
    pub(crate) node: &'a str,
    pub(crate) interface: &'a str,
    pub(crate) mac: &'a [u8; 6],
    pub(crate) frame: &'a [u8],
}

impl<J: Classed> Question<ElectedView<J>> for Asked<'_> {
    type Answer = Answer;

    ghost use Rattle.view_board.specs.Answers.{IsAnswer};

    ghost answers = { λ asked view answer. IsAnswer view asked.node.now asked.interface.now asked.mac.now asked.frame.now answer };

    fn ask(&self, value: &ElectedView<J>) -> Answer {
        let view = &value.view;
        let announcers = value.announcers.as_ref();
        let (node, name, mac, frame) = (self.node, self.interface, self.mac, self.frame);
        if let Some(bytes) = arp_answer_known(view, announcers, node, name, mac, frame) {
            return Answer::Arp { bytes };
        }
        match ndp_answer_known(view, announcers, node, name, mac, frame) {
            Some(bytes) => Answer::Ndp { bytes },
            None => Answer::Silent,
        }
    }
}
