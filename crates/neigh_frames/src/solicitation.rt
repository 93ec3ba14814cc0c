//! Neighbor solicitations, as they are read.
ghost use Rattle.std.specs.Prelude.{◌≡◌, ◌+◌, ◌≤◌, IsTrue, length};
ghost use Rattle.neigh_frames.specs.Solicitation.{payload_length, has_message, is_solicitation};
ghost use Rattle.neigh_frames.specs.Solicitation.{has_right_checksum};
ghost use Rattle.neigh_frames.specs.Solicitation.{is_unspecified, is_to_solicited_node};
ghost use Rattle.neigh_frames.specs.Solicitation.{has_valid_source, solicited_node_of};

use crate::checksum::message_sum;
use crate::filling::Filling;
use crate::options::Sender;

const ETHER_TYPE: [u8; 2] = [0x86, 0xdd];

/// The next header ICMPv6 and the hop limit.
const ICMP: [u8; 2] = [58, 255];

/// Type and code.
const SOLICITATION: [u8; 2] = [135, 0];

const UNSPECIFIED: [u8; 16] = [0; 16];

const SOLICITED_NODE: [u8; 13] = [0xff, 0x02, 0, 0, 0, 0, 0, 0, 0, 0, 0, 1, 0xff];

/// The length of what is behind the IPv6 header.
pub(crate) fn payload_length(frame: &[u8]) -> usize
    requires { 78 ≤ length frame.now }
    ensures { result ≡ payload_length frame.now }
{
    frame[18] as usize * 256 + frame[19] as usize
}

/// Whether the frame has a whole ICMPv6 message of at least 24 bytes.
pub(crate) fn has_message(frame: &[u8]) -> bool
    ensures value { result ≡ has_message frame.now }
    ensures long { IsTrue result → 24 ≤ payload_length frame.now }
    ensures whole { IsTrue result → 54 + payload_length frame.now ≤ length frame.now }
{
    if frame.len() < 78 {
        return false;
    }
    let length = payload_length(frame);
    &frame[12..14] == &ETHER_TYPE[..]
        && frame[14] / 16 == 6
        && &frame[20..22] == &ICMP[..]
        && length >= 24
        && 54 + length <= frame.len()
}

/// Whether the message is a solicitation of an address that isn't multicast.
pub(crate) fn is_solicitation(frame: &[u8]) -> bool
    requires long { 24 ≤ payload_length frame.now }
    requires whole { 54 + payload_length frame.now ≤ length frame.now }
    ensures { result ≡ is_solicitation frame.now }
{
    &frame[54..56] == &SOLICITATION[..] && frame[62] != 0xff && has_right_checksum(frame)
}

/// Whether the checksum of the message is right.
fn has_right_checksum(frame: &[u8]) -> bool
    requires long { 24 ≤ payload_length frame.now }
    requires whole { 54 + payload_length frame.now ≤ length frame.now }
    ensures { result ≡ has_right_checksum frame.now }
{
    let end = 54 + payload_length(frame);
    message_sum(&frame[22..54], &frame[54..end]) == 0xffff
}

/// Whether the address is `::`.
pub(crate) fn is_unspecified(address: &[u8]) -> bool
    ensures { result ≡ is_unspecified address.now }
{
    address == &UNSPECIFIED[..]
}

/// The solicited-node address of an address.
fn solicited_node(address: &[u8]) -> [u8; 16]
    requires { length address.now ≡ 16 }
    ensures { result ≡ solicited_node_of address.now }
{
    let mut node = Filling::new();
    node.put(&SOLICITED_NODE);
    node.put(&address[13..16]);
    node.whole()
}

/// Whether it was sent to the solicited-node address of its target.
fn is_to_solicited_node(frame: &[u8]) -> bool
    requires { 78 ≤ length frame.now }
    ensures { result ≡ is_to_solicited_node frame.now }
{
    &frame[38..54] == &solicited_node(&frame[62..78])[..]
}

/// Whether the solicitation has a source address, or is as one without must be.
pub(crate) fn has_valid_source(frame: &[u8], sender: &Sender) -> bool
    requires { 78 ≤ length frame.now }
    ensures { result ≡ has_valid_source frame.now sender.now }
{
    !is_unspecified(&frame[22..38]) || (is_to_solicited_node(frame) && !sender.stated)
}
