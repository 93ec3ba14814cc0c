//! Prefixes in messages.
ghost use Rattle.std.specs.Prelude.{◌≡◌, ◌++◌, ◌≤◌, ◌<◌, ◌^◌, ◌/◌, OnOk, take};
ghost use Rattle.ip_ranges.specs.declared.family.Family.TheVariants.{V4};
ghost use Rattle.ip_ranges.specs.Values.{same_family, width_of};
ghost use Rattle.bgp_updates.specs.Message.{address_bytes, octets, prefix_bytes, Fits};
ghost use Rattle.bgp_updates.specs.Received.{same_prefix};
ghost use Rattle.bgp_updates.specs.Tables.{before, numbers_before};

use ip_ranges::{Family, Prefix};
use mlb_base::NoMemory;

/// How many octets hold the prefix.
pub(crate) fn octets(prefix: &Prefix) -> usize
    ensures value { result ≡ octets prefix.now }
    ensures small { result ≤ 32 }
{
    (prefix.length as usize + 7) / 8
}

/// Appends the prefix's length and the octets that hold it.
pub(crate) fn put_prefix(prefix: &Prefix, out: &mut Vec<u8>) -> Result<(), NoMemory>
    requires { Fits prefix.now }
    ensures { OnOk result (out.new.items ≡ out.old.items ++ prefix_bytes prefix.now) }
{
    out.push(prefix.length)?;
    put_front(prefix.family, prefix.number, octets(prefix), out)
}

/// Appends the first so many octets of an address.
fn put_front(family: Family, number: u128, count: usize, out: &mut Vec<u8>) -> Result<(), NoMemory>
    requires number { number < 2 ^ width_of family }
    requires count { count ≤ width_of family / 8 }
    ensures { OnOk result (out.new.items
        ≡ out.old.items ++ take count (address_bytes family number)) }
{
    match family {
        Family::V4 => {
            let number = number as u32;
            out.extend_from_slice(&number.to_be_bytes()[..count])?;
        }
        Family::V6 => out.extend_from_slice(&number.to_be_bytes()[..count])?,
    }
    Ok(())
}

/// Whether the prefix is of IPv4.
pub(crate) fn is_v4(prefix: &Prefix) -> bool
    ensures { result ≡ same_family prefix.now.family V4 }
{
    match prefix.family {
        Family::V4 => true,
        Family::V6 => false,
    }
}

/// Whether the prefixes are one.
pub(crate) fn same_prefix(p: &Prefix, q: &Prefix) -> bool
    ensures { result ≡ same_prefix p.now q.now }
{
    p.family == q.family && p.number == q.number && p.length == q.length
}

/// Whether the prefix comes before the other one: IPv4 first, then by number and then by length. It
/// takes no memory.
pub fn is_before(p: &Prefix, q: &Prefix) -> bool
    ensures { result ≡ before p.now q.now }
{
    match (p.family, q.family) {
        (Family::V4, Family::V6) => true,
        (Family::V6, Family::V4) => false,
        (Family::V4, Family::V4) | (Family::V6, Family::V6) => {
            are_before(p.number, q.number, p.length, q.length)
        }
    }
}

fn are_before(number: u128, other: u128, length: u8, long: u8) -> bool
    ensures { result ≡ numbers_before number other length long }
{
    number < other || (number == other && length < long)
}
