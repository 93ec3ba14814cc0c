//! Neighbor advertisements, as they are written.
ghost use Rattle.std.specs.Prelude.{◌≡◌, ◌≤◌, length};
ghost use Rattle.neigh_frames.specs.Solicitation.{HasRightChecksum};
ghost use Rattle.neigh_frames.specs.Advertisement.{advertisement, checksum_of, ndp_reply, reply_to};
ghost use Rattle.neigh_frames.specs.Advertisement.{to_all_nodes};

use crate::checksum::message_sum;
use crate::filling::Filling;
use crate::options::Sender;
use crate::solicitation::is_unspecified;

/// The EtherType, and the IPv6 header before its addresses: version 6, 32 bytes, next header
/// ICMPv6, hop limit 255.
const HEADER: [u8; 10] = [0x86, 0xdd, 0x60, 0, 0, 0, 0, 32, 58, 255];

const ALL_NODES: [u8; 16] = [0xff, 0x02, 0, 0, 0, 0, 0, 0, 0, 0, 0, 0, 0, 0, 0, 1];

const ALL_NODES_HARDWARE: [u8; 6] = [0x33, 0x33, 0, 0, 0, 1];

const SOLICITED: u8 = 0x40;

/// The answer to a solicitation whose options say this of their sender.
pub(crate) fn reply_to(mac: &[u8; 6], frame: &[u8], sender: &Sender) -> [u8; 86]
    requires { 78 ≤ length frame.now }
    ensures value { result ≡ reply_to mac.now frame.now sender.now }
    ensures checksum { HasRightChecksum result }
{
    let target = &frame[62..78];
    let source = &frame[22..38];
    if is_unspecified(source) {
        return to_all_nodes(mac, target, 0);
    }
    let hardware = match &sender.hardware {
        Some(hardware) => &hardware[..],
        None => &frame[6..12],
    };
    reply(mac, hardware, target, source, SOLICITED)
}

/// The advertisement of the target to all nodes.
pub(crate) fn to_all_nodes(mac: &[u8; 6], target: &[u8], flags: u8) -> [u8; 86]
    requires { length target.now ≡ 16 }
    ensures value { result ≡ to_all_nodes mac.now target.now flags }
    ensures checksum { HasRightChecksum result }
{
    reply(mac, &ALL_NODES_HARDWARE, target, &ALL_NODES, flags)
}

fn reply(mac: &[u8; 6], hardware: &[u8], target: &[u8], destination: &[u8], flags: u8) -> [u8; 86]
    requires hardware { length hardware.now ≡ 6 }
    requires target { length target.now ≡ 16 }
    requires destination { length destination.now ≡ 16 }
    ensures value { result ≡ ndp_reply mac.now hardware.now target.now destination.now flags }
    ensures checksum { HasRightChecksum result }
{
    let checksum = checksum(flags, target, destination, mac);
    let message = advertisement(flags, target, mac, checksum);
    let mut frame = Filling::new();
    frame.put(hardware);
    frame.put(mac);
    frame.put(&HEADER);
    frame.put(target);
    frame.put(destination);
    frame.put(&message);
    frame.whole()
}

fn checksum(flags: u8, target: &[u8], destination: &[u8], mac: &[u8; 6]) -> u16
    requires target { length target.now ≡ 16 }
    requires destination { length destination.now ≡ 16 }
    ensures { result ≡ checksum_of flags target.now destination.now mac.now }
{
    let mut addresses = Filling::<32>::new();
    addresses.put(target);
    addresses.put(destination);
    let addresses = addresses.whole();
    let message = advertisement(flags, target, mac, 0);
    0xffff - message_sum(&addresses, &message)
}

fn advertisement(flags: u8, target: &[u8], mac: &[u8; 6], checksum: u16) -> [u8; 32]
    requires { length target.now ≡ 16 }
    ensures { result ≡ advertisement flags target.now mac.now checksum }
{
    let mut message = Filling::new();
    message.put(&[136, 0]);
    message.put(&checksum.to_be_bytes());
    message.put(&[flags, 0, 0, 0]);
    message.put(target);
    message.put(&[2, 1]);
    message.put(mac);
    message.whole()
}
