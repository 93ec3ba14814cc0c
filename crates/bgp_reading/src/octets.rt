//! Octets at a place, of which those past the end count as 0.
ghost use Rattle.std.specs.Prelude.{◌≡◌, ◌≤◌, take, drop, slice_index};
ghost use Rattle.bgp_reading.specs.Places.{number_at, short_at, wide_in};

/// The octet at the place.
pub(crate) fn octet(bytes: &[u8], place: usize) -> u8
    ensures { result ≡ slice_index bytes.now place }
{
    if place < bytes.len() { bytes[place] } else { 0 }
}

/// The number in two octets from the place on.
pub(crate) fn short_at(bytes: &[u8], place: usize) -> u16
    requires { place ≤ 4096 }
    ensures { result ≡ short_at place bytes.now }
{
    u16::from_be_bytes([octet(bytes, place), octet(bytes, place + 1)])
}

/// The number in four octets from the place on.
pub(crate) fn number_at(bytes: &[u8], place: usize) -> u32
    requires { place ≤ 4096 }
    ensures { result ≡ number_at place bytes.now }
{
    u32::from_be_bytes([
        octet(bytes, place),
        octet(bytes, place + 1),
        octet(bytes, place + 2),
        octet(bytes, place + 3),
    ])
}

/// The number in the first sixteen octets.
#[tactic(auto, unfolding(crate::specs::Places::wide_in))]
pub(crate) fn wide_in(bytes: &[u8]) -> u128
    ensures { result ≡ wide_in bytes.now }
{
    let mut octets = [0; 16];
    for place in 0..16 {
        octets[place] = octet(bytes, place);
    }
    u128::from_be_bytes(octets)
}

/// The first so many octets.
pub(crate) fn front(bytes: &[u8], count: usize) -> &[u8]
    ensures { result.now ≡ take count bytes.now }
{
    if count < bytes.len() {
        &bytes[..count]
    } else {
        bytes
    }
}

/// What follows the first so many octets.
pub(crate) fn behind(bytes: &[u8], count: usize) -> &[u8]
    ensures { result.now ≡ drop count bytes.now }
{
    if count < bytes.len() {
        &bytes[count..]
    } else {
        &[]
    }
}
