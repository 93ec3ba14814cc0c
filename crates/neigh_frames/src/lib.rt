//! Answers to ARP requests and neighbor solicitations, gratuitous ARP and unsolicited Neighbor
//! Advertisements: Ethernet frames of fixed sizes, which take no memory. Numbers in frames are
//! big-endian, and addresses stand as they are sent.
#![tactic(auto)]

mod advertisement;
mod arp;
mod checksum;
mod filling;
mod ndp;
mod options;
mod solicitation;

pub use arp::{arp_answer, arp_answer_known, unasked_arp};
pub use ndp::{ndp_answer, ndp_answer_known, unasked_ndp};
