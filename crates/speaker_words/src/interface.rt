//! The interfaces that words name, with their hardware addresses.
ghost use Rattle.std.specs.Prelude.{◌≡◌};
ghost use Rattle.std.specs.Option.{option_map};
ghost use Rattle.speaker_words.specs.Interface.{is_paired, mac_of, interface_of};
ghost use Rattle.speaker_words.specs.Seen.{interface_seen};

use hex::FromHex;

/// An interface of the node.
#[derive(Clone, Copy, Default)]
pub struct InterfaceWord<'a> {
    /// The interface's name. It has no `=`, and may be empty.
    pub name: &'a str,
    /// Its hardware address, the octets in the order that they are sent in (EUI-48; RFC 9542,
    /// section 2.1).
    pub mac: [u8; 6],
}

/// The interface of a value `NAME=MAC`, which is split at its first `=`. `None` where the value has
/// no `=`, or where no hardware address stands after it.
pub(crate) fn interface_of(value: &str) -> Option<InterfaceWord<'_>>
    ensures { option_map interface_seen result ≡ interface_of value.now }
{
    let (name, text) = value.split_once('=')?;
    let mac = mac_of(text.as_bytes())?;
    Some(InterfaceWord { name, mac })
}

/// The hardware address that the text writes: six octets of two hexadecimal digits, with `:`
/// between them.
#[tactic(auto, unfolding(crate::specs::Interface::mac_of))]
fn mac_of(text: &[u8]) -> Option<[u8; 6]>
    ensures { result ≡ mac_of text.now }
{
    if !is_paired(text) {
        return None;
    }
    let digits = [
        text[0], text[1], text[3], text[4], text[6], text[7], text[9], text[10], text[12],
        text[13], text[15], text[16],
    ];
    <[u8; 6] as FromHex>::from_hex(digits).ok()
}

/// Whether the text is of six pairs of bytes, with `:` between them.
fn is_paired(text: &[u8]) -> bool
    ensures { result ≡ is_paired text.now }
{
    text.len() == 17
        && text[2] == b':'
        && text[5] == b':'
        && text[8] == b':'
        && text[11] == b':'
        && text[14] == b':'
}
