//! ARP for IPv4 over Ethernet.
ghost use Rattle.std.specs.Prelude.{◌≡◌, ◌↔◌, ◌≤◌, ℕ, List, Some, length};
ghost use Rattle.std.specs.Option.{option_copied};
ghost use Rattle.l2_elect.specs.Kept.{AreKnown};
ghost use Rattle.l2_elect.specs.Listening.{listens_of};
ghost use Rattle.ip_ranges.specs.declared.family.Family.TheVariants.{V4};
ghost use Rattle.neigh_frames.specs.Arp.{IsArpAnswer, is_arp_request, arp_answer_of, arp_reply};
ghost use Rattle.neigh_frames.specs.Arp.{unasked_arp_of, address_at};

use crate::filling::Filling;
use ip_ranges::{Address, Family};
use l2_elect::{Announcers, listens_known};
use speaker_view::View;

/// The EtherType, and the packet up to its operation, a request.
const REQUEST: [u8; 10] = [0x08, 0x06, 0x00, 0x01, 0x08, 0x00, 6, 4, 0x00, 1];

/// The same of a reply.
const REPLY: [u8; 10] = [0x08, 0x06, 0x00, 0x01, 0x08, 0x00, 6, 4, 0x00, 2];

const BROADCAST: [u8; 6] = [0xff; 6];

/// The ARP reply that answers the request in an Ethernet frame, where the frame has one for an IPv4
/// address for which the node listens on the interface (RFC 826). `mac` is the hardware address of
/// the interface. The frame's Ethernet destination isn't looked at, and bytes after the first 42
/// are padding. VLAN tags have no answer. It takes no memory.
pub fn arp_answer(
    view: &View,
    node: &str,
    interface: &str,
    mac: &[u8; 6],
    frame: &[u8],
) -> Option<[u8; 42]>
    ensures value { result ≡ arp_answer_of
        (listens_of view.now node.now interface.now) mac.now frame.now }
    ensures meaning { (answer : List ℕ)
        → (result ≡ Some answer) ↔ IsArpAnswer view.now node.now interface.now mac.now frame.now
        answer }
{
    arp_answer_known(view, None, node, interface, mac, frame)
}

/// The same, by the announcers of the view where they are known: then no election is held. It takes
/// no memory.
pub fn arp_answer_known(
    view: &View,
    announcers: Option<&Announcers>,
    node: &str,
    interface: &str,
    mac: &[u8; 6],
    frame: &[u8],
) -> Option<[u8; 42]>
    requires { AreKnown (option_copied announcers) view.now }
    ensures value { result ≡ arp_answer_of
        (listens_of view.now node.now interface.now) mac.now frame.now }
    ensures meaning { (answer : List ℕ)
        → (result ≡ Some answer) ↔ IsArpAnswer view.now node.now interface.now mac.now frame.now
        answer }
{
    answer_if_asked(view, announcers, node, interface, mac, frame)
}

/// The reply, where one is asked for of a node that listens.
fn answer_if_asked(
    view: &View,
    announcers: Option<&Announcers>,
    node: &str,
    interface: &str,
    mac: &[u8; 6],
    frame: &[u8],
) -> Option<[u8; 42]>
    requires { AreKnown (option_copied announcers) view.now }
    ensures { result ≡ arp_answer_of
        (listens_of view.now node.now interface.now) mac.now frame.now }
{
    if !is_request(frame) {
        return None;
    }
    if !listens_known(view, announcers, node, interface, &target(frame)) {
        return None;
    }
    Some(reply(mac, &frame[38..42], &frame[22..28], &frame[28..32]))
}

/// The ARP reply to all stations that nobody asked for, by which they are told that `mac` has the
/// IPv4 address (RFC 826): its target is the broadcast address, and the same IPv4 address. It takes
/// no memory.
#[tactic(auto, unfolding(crate::specs::Arp::unasked_arp_of))]
pub fn unasked_arp(mac: &[u8; 6], address: &Address) -> [u8; 42]
    requires { address.now.family ≡ V4 }
    ensures { result ≡ unasked_arp_of mac.now address.now.number }
{
    let protocol = (address.number as u32).to_be_bytes();
    reply(mac, &protocol, &BROADCAST, &protocol)
}

/// Whether the frame has an ARP request.
fn is_request(frame: &[u8]) -> bool
    ensures { result ≡ is_arp_request frame.now }
{
    frame.len() >= 42 && &frame[12..22] == &REQUEST[..]
}

/// The address that is asked for.
fn target(frame: &[u8]) -> Address
    requires { 42 ≤ length frame.now }
    ensures { result ≡ address_at frame.now 38 }
{
    let number = u32::from_be_bytes([frame[38], frame[39], frame[40], frame[41]]);
    Address {
        family: Family::V4,
        number: number as u128,
    }
}

/// The reply that `mac` has the protocol address, to the asker.
fn reply(mac: &[u8; 6], protocol: &[u8], asker: &[u8], asker_protocol: &[u8]) -> [u8; 42]
    requires protocol { length protocol.now ≡ 4 }
    requires asker { length asker.now ≡ 6 }
    requires asker_protocol { length asker_protocol.now ≡ 4 }
    ensures { result ≡ arp_reply mac.now protocol.now asker.now asker_protocol.now }
{
    let mut answer = Filling::new();
    answer.put(asker);
    answer.put(mac);
    answer.put(&REPLY);
    answer.put(mac);
    answer.put(protocol);
    answer.put(asker);
    answer.put(asker_protocol);
    answer.whole()
}
