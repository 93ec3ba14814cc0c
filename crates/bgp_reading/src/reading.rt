//! UPDATE messages, read.
ghost use Rattle.std.specs.Prelude.{◌≡◌, ◌≤◌, IfOk, IsErrOf, None, Some, length};
ghost use Rattle.bgp_reading.specs.Reading.{announced_family, attributes_say, update_of};
ghost use Rattle.bgp_reading.specs.Update.{IsUpdate};
ghost use Rattle.bgp_reading.specs.declared.parts.UpdateParts.{UpdateParts};

use crate::forms::{read_announcement, read_withdrawal};
use crate::octets::{octet, short_at};
use crate::parts::{UpdateFault, UpdateParts};
use ip_ranges::Family;
use mlb_base::NoMemory;
use std::alloc::Global;

/// What the UPDATE message says that the octets are (RFC 4271, section 4.3; RFC 4760; RFC 8092).
///
/// It has at most 4,096 octets, and is of one of two forms: withdrawn routes alone, or one group of announced routes with ORIGIN, AS_PATH,
/// NEXT_HOP, from inside the AS LOCAL_PREF, and COMMUNITIES and LARGE_COMMUNITY where there are some, ascending by type. Prefixes are of
/// IPv4, or of IPv6: then they stand in MP_UNREACH_NLRI, or in MP_REACH_NLRI with a next hop of sixteen octets, and there is no NEXT_HOP.
/// There is at least one; they ascend, without bits past their length, and communities ascend; AS numbers have four octets. All else is
/// `NotUpdate`. `NoMemory` may come at any time.
pub fn read_update(alloc: Global, bytes: &[u8]) -> Result<UpdateParts, UpdateFault>
    ensures read { IfOk result (λ parts. IsUpdate parts bytes.now) }
    ensures not_update { IsErrOf result UpdateFault.NotUpdate → (parts : UpdateParts)
        → ¬ IsUpdate parts bytes.now }
    ensures value { IfOk result (λ parts. update_of bytes.now ≡ Some parts) }
    ensures none { IsErrOf result UpdateFault.NotUpdate → update_of bytes.now ≡ None }
{
    read_in_form(alloc, bytes)
}

fn read_in_form(alloc: Global, bytes: &[u8]) -> Result<UpdateParts, UpdateFault>
    ensures value { IfOk result (λ parts. update_of bytes.now ≡ Some parts) }
    ensures none { IsErrOf result UpdateFault.NotUpdate → update_of bytes.now ≡ None }
{
    let found = find_update(alloc, bytes)?;
    match found {
        Some(parts) => Ok(parts),
        None => Err(UpdateFault::NotUpdate),
    }
}

fn find_update(alloc: Global, bytes: &[u8]) -> Result<Option<UpdateParts>, NoMemory>
    ensures { IfOk result (λ found. found ≡ update_of bytes.now) }
{
    if bytes.len() > 4096 {
        return Ok(None);
    }
    if short_at(bytes, 19) == 0 {
        return read_attributes(alloc, bytes);
    }
    read_withdrawal(alloc, Family::V4, bytes)
}

/// A message without the withdrawn routes of IPv4.
fn read_attributes(alloc: Global, bytes: &[u8]) -> Result<Option<UpdateParts>, NoMemory>
    requires { length bytes.now ≤ 4096 }
    ensures { IfOk result (λ found. found ≡ attributes_say bytes.now) }
{
    if octet(bytes, 24) == 15 {
        return read_withdrawal(alloc, Family::V6, bytes);
    }
    read_announcement(alloc, announced_family(bytes), bytes)
}

/// The family of announced prefixes: those of IPv4 are after the attributes.
fn announced_family(bytes: &[u8]) -> Family
    ensures { result ≡ announced_family bytes.now }
{
    if bytes.len() <= 23 + short_at(bytes, 21) as usize {
        Family::V6
    } else {
        Family::V4
    }
}
