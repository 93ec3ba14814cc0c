//! Prefixes, read.
ghost use Rattle.std.specs.Prelude.{◌≡◌, ◌≤◌, ◌<◌, ◌^◌, None, All, IfOk};
ghost use Rattle.ip_ranges.specs.Values.{width_of};
ghost use Rattle.bgp_updates.specs.Message.{Fits};
ghost use Rattle.bgp_reading.specs.Places.{address_in, prefix_in, prefixes_in};
ghost use Rattle.bgp_reading.specs.Reading.{are_prefixes, comes_behind, follow};

use crate::octets::{behind, front, number_at, wide_in};
use bgp_updates::is_before;
use ip_ranges::{Address, Family, Prefix, PrefixList, mask};
use mlb_base::{NoMemory, Sequence};
use std::alloc::Global;

/// The prefixes of the family that stand one after the other in the octets.
pub(crate) fn read_prefixes(
    alloc: Global,
    family: Family,
    bytes: &[u8],
) -> Result<PrefixList, NoMemory>
    ensures value { IfOk result (λ prefixes. prefixes ≡ prefixes_in family bytes.now) }
    ensures fits { IfOk result (λ prefixes. All Fits prefixes) }
{
    let mut prefixes = Sequence::new(alloc);
    let mut rest = bytes;
    while let [bits, body @ ..] = rest {
        if *bits > family.width() {
            return Ok(prefixes);
        }
        let octets = (*bits as usize + 7) / 8;
        prefixes.push(prefix_in(family, *bits, front(body, octets)))?;
        rest = behind(body, octets);
    }
    Ok(prefixes)
}

/// The prefix of so many bits whose first octets these are.
fn prefix_in(family: Family, bits: u8, octets: &[u8]) -> Prefix
    requires bits { bits ≤ width_of family }
    ensures value { result ≡ prefix_in family bits octets.now }
    ensures fits { Fits result }
{
    let address = Address {
        family,
        number: address_in(family, octets),
    };
    mask(&address, bits)
}

fn address_in(family: Family, octets: &[u8]) -> u128
    ensures value { result ≡ address_in family octets.now }
    ensures fits { result < 2 ^ width_of family }
{
    match family {
        Family::V4 => u128::from(number_at(octets, 0)),
        Family::V6 => wide_in(octets),
    }
}

/// Whether the prefixes are some, and ascend.
pub(crate) fn are_prefixes(prefixes: &[Prefix]) -> bool
    ensures { result ≡ are_prefixes prefixes.now }
{
    !prefixes.is_empty() && follow(prefixes)
}

fn follow(prefixes: &[Prefix]) -> bool
    ensures { result ≡ follow None prefixes.now }
{
    let mut last = None;
    for prefix in prefixes {
        if !comes_behind(last, prefix) {
            return false;
        }
        last = Some(*prefix);
    }
    true
}

fn comes_behind(last: Option<Prefix>, prefix: &Prefix) -> bool
    ensures { result ≡ comes_behind last prefix.now }
{
    match last {
        None => true,
        Some(last) => is_before(&last, prefix),
    }
}
