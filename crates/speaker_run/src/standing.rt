//! Which answers are sent.
ghost use Rattle.std.specs.Prelude.{◌≡◌, length};
ghost use Rattle.neigh_frames.specs.Arp.{address_at};
ghost use Rattle.neigh_frames.specs.Ndp.{ipv6_address};
ghost use Rattle.speaker_run.specs.Standing.{answered_address, is_announced, standing_answer};

use ip_ranges::{Address, Family};
use speaker_machine::Speaker;

/// The octets of an ARP reply, and of a neighbor advertisement.
const ARP: usize = 42;

const NDP: usize = 86;

/// The answer where its address stands announced by what was told, and else nothing. It takes no
/// memory.
pub(crate) fn standing_answer<'a>(speaker: &Speaker, answer: &'a [u8]) -> &'a [u8]
    ensures { result.now ≡ standing_answer speaker.now answer.now }
{
    if is_announced(speaker, answered_address(answer)) {
        answer
    } else {
        &answer[..0]
    }
}

/// Whether there is an address, and the speaker's node announces it.
fn is_announced(speaker: &Speaker, address: Option<Address>) -> bool
    ensures { result ≡ is_announced speaker.now address }
{
    match address {
        Some(address) => speaker.announces(&address),
        None => false,
    }
}

/// The address that an answer is for.
fn answered_address(answer: &[u8]) -> Option<Address>
    ensures { result ≡ answered_address answer.now }
{
    if answer.len() == ARP {
        Some(sender(answer))
    } else if answer.len() == NDP {
        Some(target(&answer[62..78]))
    } else {
        None
    }
}

/// The address of the sender of an ARP reply (RFC 826).
fn sender(answer: &[u8]) -> Address
    requires { length answer.now ≡ 42 }
    ensures { result ≡ address_at answer.now 28 }
{
    let number = u32::from_be_bytes([answer[28], answer[29], answer[30], answer[31]]);
    Address {
        family: Family::V4,
        number: number as u128,
    }
}

/// The target of a neighbor advertisement (RFC 4861, section 4.4), in these octets.
fn target(octets: &[u8]) -> Address
    requires { length octets.now ≡ 16 }
    ensures { result ≡ ipv6_address octets.now }
{
    let mut number = [0; 16];
    number.copy_from_slice(octets);
    Address {
        family: Family::V6,
        number: u128::from_be_bytes(number),
    }
}
