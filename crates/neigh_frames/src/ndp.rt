//! Neighbor Discovery for IPv6.
ghost use Rattle.std.specs.Prelude.{◌≡◌, ◌↔◌, ◌+◌, ◌≤◌, ℕ, List, Some, IfSome, IsTrue, length};
ghost use Rattle.ip_ranges.specs.declared.family.Family.TheVariants.{V6};
ghost use Rattle.std.specs.Option.{option_copied};
ghost use Rattle.l2_elect.specs.Kept.{AreKnown};
ghost use Rattle.l2_elect.specs.Listening.{listens_of};
ghost use Rattle.neigh_frames.specs.Solicitation.{HasRightChecksum, payload_length};
ghost use Rattle.neigh_frames.specs.Advertisement.{unasked_ndp_of};
ghost use Rattle.neigh_frames.specs.Ndp.{IsNdpAnswer, answer_of, answer_to, ipv6_address, is_asked};
ghost use Rattle.neigh_frames.specs.Ndp.{ndp_answer_of};

use crate::advertisement::{reply_to, to_all_nodes};
use crate::options::{Sender, sender_of};
use crate::solicitation::{has_message, has_valid_source, is_solicitation, payload_length};
use ip_ranges::{Address, Family};
use l2_elect::{Announcers, listens_known};
use speaker_view::View;

const OVERRIDE: u8 = 0x20;

/// The neighbor advertisement that answers the solicitation in an Ethernet frame, where the frame
/// has a valid one for an address for which the node listens on the interface (RFC 4861, sections
/// 4.3, 4.4, 7.1.1, 7.2.3 and 7.2.4). The Router and Override flags are clear, the Solicited flag
/// is set where the solicitation has a source address, and `mac` is the hardware address of the
/// interface. The frame's Ethernet destination isn't looked at, and bytes after the IPv6 packet are
/// padding. Extension headers and VLAN tags have no answer. It takes no memory.
pub fn ndp_answer(
    view: &View,
    node: &str,
    interface: &str,
    mac: &[u8; 6],
    frame: &[u8],
) -> Option<[u8; 86]>
    ensures value { result ≡ ndp_answer_of
        (listens_of view.now node.now interface.now) mac.now frame.now }
    ensures meaning { (answer : List ℕ)
        → (result ≡ Some answer) ↔ IsNdpAnswer view.now node.now interface.now mac.now frame.now
        answer }
    ensures checksum { IfSome result HasRightChecksum }
{
    ndp_answer_known(view, None, node, interface, mac, frame)
}

/// The same, by the announcers of the view where they are known: then no election is held. It takes
/// no memory.
pub fn ndp_answer_known(
    view: &View,
    announcers: Option<&Announcers>,
    node: &str,
    interface: &str,
    mac: &[u8; 6],
    frame: &[u8],
) -> Option<[u8; 86]>
    requires { AreKnown (option_copied announcers) view.now }
    ensures value { result ≡ ndp_answer_of
        (listens_of view.now node.now interface.now) mac.now frame.now }
    ensures meaning { (answer : List ℕ)
        → (result ≡ Some answer) ↔ IsNdpAnswer view.now node.now interface.now mac.now frame.now
        answer }
    ensures checksum { IfSome result HasRightChecksum }
{
    answer_if_asked(view, announcers, node, interface, mac, frame)
}

/// The advertisement, where the solicitation asks for an address that is listened to.
fn answer_if_asked(
    view: &View,
    announcers: Option<&Announcers>,
    node: &str,
    interface: &str,
    mac: &[u8; 6],
    frame: &[u8],
) -> Option<[u8; 86]>
    requires { AreKnown (option_copied announcers) view.now }
    ensures value { result ≡ ndp_answer_of
        (listens_of view.now node.now interface.now) mac.now frame.now }
    ensures checksum { IfSome result HasRightChecksum }
{
    if !is_asked(view, announcers, node, interface, frame) {
        return None;
    }
    answer(mac, frame)
}

/// The neighbor advertisement to all nodes that nobody asked for, by which they are told that `mac`
/// has the IPv6 address: the Override flag alone is set (RFC 4861, sections 4.4 and 7.2.6). It
/// takes no memory.
pub fn unasked_ndp(mac: &[u8; 6], address: &Address) -> [u8; 86]
    requires { address.now.family ≡ V6 }
    ensures value { result ≡ unasked_ndp_of mac.now address.now.number }
    ensures checksum { HasRightChecksum result }
{
    to_all_nodes(mac, &number_of(address).to_be_bytes(), OVERRIDE)
}

fn number_of(address: &Address) -> u128
    ensures { result ≡ address.now.number }
{
    address.number
}

/// Whether the frame asks for an address that is listened to.
fn is_asked(
    view: &View,
    announcers: Option<&Announcers>,
    node: &str,
    interface: &str,
    frame: &[u8],
) -> bool
    requires { AreKnown (option_copied announcers) view.now }
    ensures value { result ≡ is_asked (listens_of view.now node.now interface.now) frame.now }
    ensures long { IsTrue result → 24 ≤ payload_length frame.now }
    ensures whole { IsTrue result → 54 + payload_length frame.now ≤ length frame.now }
{
    has_message(frame)
        && is_solicitation(frame)
        && listens_known(view, announcers, node, interface, &ipv6(&frame[62..78]))
}

fn ipv6(bytes: &[u8]) -> Address
    requires { length bytes.now ≡ 16 }
    ensures { result ≡ ipv6_address bytes.now }
{
    let mut number = [0; 16];
    number.copy_from_slice(bytes);
    Address {
        family: Family::V6,
        number: u128::from_be_bytes(number),
    }
}

/// What is answered to a solicitation, if its options are whole.
fn answer(mac: &[u8; 6], frame: &[u8]) -> Option<[u8; 86]>
    requires long { 24 ≤ payload_length frame.now }
    requires whole { 54 + payload_length frame.now ≤ length frame.now }
    ensures value { result ≡ answer_of mac.now frame.now }
    ensures checksum { IfSome result HasRightChecksum }
{
    let end = 54 + payload_length(frame);
    let sender = sender_of(&frame[78..end])?;
    answer_to(mac, frame, &sender)
}

/// What is answered where the options say this of their sender.
fn answer_to(mac: &[u8; 6], frame: &[u8], sender: &Sender) -> Option<[u8; 86]>
    requires { 78 ≤ length frame.now }
    ensures value { result ≡ answer_to mac.now frame.now sender.now }
    ensures checksum { IfSome result HasRightChecksum }
{
    if !has_valid_source(frame, sender) {
        return None;
    }
    Some(reply_to(mac, frame, sender))
}
