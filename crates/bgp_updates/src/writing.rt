//! The parts of UPDATE messages, written.
ghost use Rattle.std.specs.Int.{w128, to_be_bytes};
ghost use Rattle.std.specs.Prelude.{◌≡◌, ◌+◌, ◌*◌, ◌++◌, ◌∷◌, ◌≤◌, All, IfOk, OnOk, [], length};
ghost use Rattle.bgp_updates.specs.Message.{Fits, announced_part, attribute, communities_attribute};
ghost use Rattle.bgp_updates.specs.Message.{communities_bytes, front_of, hop_attribute};
ghost use Rattle.bgp_updates.specs.Message.{large_attribute, large_octets, larges_bytes};
ghost use Rattle.bgp_updates.specs.Message.{message_of, optional_attribute, path_attribute};
ghost use Rattle.bgp_updates.specs.Message.{preference_attribute, prefixes_bytes, reach_attribute};
ghost use Rattle.bgp_updates.specs.Message.{unreach_attribute, withdrawn_part};

use crate::octets::{put_u16, put_u32};
use crate::part::Part;
use crate::prefix::put_prefix;
use crate::route::{Peering, Terms};
use ip_ranges::{Family, Prefix};
use large_numbers::LargeCommunity;
use mlb_base::{NoMemory, Sequence};
use std::alloc::Global;

/// The octets of an UPDATE message of three parts (RFC 4271, section 4.3): withdrawn routes, path
/// attributes and announced prefixes. Its lengths have two octets each.
pub fn message_octets(
    alloc: Global,
    withdrawn: &[u8],
    attributes: &[u8],
    announced: &[u8],
) -> Result<Vec<u8>, NoMemory>
    requires { 23 + length withdrawn.now + length attributes.now + length announced.now ≤ 65535 }
    ensures { IfOk result (λ m. m.items ≡ message_of withdrawn.now attributes.now announced.now) }
{
    let size = 23 + withdrawn.len() + attributes.len() + announced.len();
    let mut message = Vec::new(alloc);
    message.extend_from_slice(&[0xff; 16])?;
    put_u16(size as u16, &mut message)?;
    message.push(2)?;
    put_u16(withdrawn.len() as u16, &mut message)?;
    message.extend_from_slice(withdrawn)?;
    put_u16(attributes.len() as u16, &mut message)?;
    message.extend_from_slice(attributes)?;
    message.extend_from_slice(announced)?;
    Ok(message)
}

/// The octets of prefixes, one after the other: each is its length in bits, and as few octets as
/// hold it.
pub fn prefix_octets(alloc: Global, prefixes: &[Prefix]) -> Result<Vec<u8>, NoMemory>
    requires { All Fits prefixes.now }
    ensures { IfOk result (λ bytes. bytes.items ≡ prefixes_bytes prefixes.now) }
{
    let mut bytes = Vec::new(alloc);
    for prefix in prefixes {
        put_prefix(prefix, &mut bytes)?;
    }
    Ok(bytes)
}

/// Appends a path attribute (RFC 4271, section 4.3), whose length has two octets where one isn't
/// enough.
fn put_attribute(flags: u8, kind: u8, value: &[u8], out: &mut Vec<u8>) -> Result<(), NoMemory>
    requires flags { flags ≤ 0xc0 }
    requires value { length value.now ≤ 65535 }
    ensures { OnOk result (out.new.items ≡ out.old.items ++ attribute flags kind value.now) }
{
    let size = value.len();
    if size <= 255 {
        out.extend_from_slice(&[flags, kind, size as u8])?;
        out.extend_from_slice(value)?;
        return Ok(());
    }
    out.extend_from_slice(&[flags + 0x10, kind])?;
    put_u16(size as u16, out)?;
    out.extend_from_slice(value)?;
    Ok(())
}

/// The same where there is a value.
fn put_optional(flags: u8, kind: u8, value: &[u8], out: &mut Vec<u8>) -> Result<(), NoMemory>
    requires flags { flags ≤ 0xc0 }
    requires value { length value.now ≤ 65535 }
    ensures { OnOk result (out.new.items
        ≡ out.old.items ++ optional_attribute flags kind value.now) }
{
    if value.is_empty() {
        return Ok(());
    }
    put_attribute(flags, kind, value, out)
}

/// MP_UNREACH_NLRI of IPv6 prefixes (RFC 4760, section 4).
pub(crate) fn unreach_octets(alloc: Global, prefixes: &[u8]) -> Result<Vec<u8>, NoMemory>
    requires { 30 + length prefixes.now ≤ 65535 }
    ensures { IfOk result (λ bytes. bytes.items ≡ unreach_attribute prefixes.now) }
{
    let mut value = Vec::new(alloc);
    value.extend_from_slice(&[0, 2, 1])?;
    value.extend_from_slice(prefixes)?;
    let mut bytes = Vec::new(alloc);
    put_attribute(0x80, 15, value.as_slice(), &mut bytes)?;
    Ok(bytes)
}

/// Appends MP_REACH_NLRI of IPv6 prefixes (RFC 4760, section 3) with the next hop.
pub(crate) fn put_reach(
    alloc: Global,
    hop: u128,
    prefixes: &[u8],
    out: &mut Vec<u8>,
) -> Result<(), NoMemory>
    requires { 30 + length prefixes.now ≤ 65535 }
    ensures { OnOk result (out.new.items ≡ out.old.items ++ reach_attribute hop prefixes.now) }
{
    let value = reach_value(alloc, hop, prefixes)?;
    put_attribute(0x80, 14, value.as_slice(), out)
}

fn reach_value(alloc: Global, hop: u128, prefixes: &[u8]) -> Result<Vec<u8>, NoMemory>
    ensures { IfOk result (λ value. value.items
        ≡ (0 ∷ 2 ∷ 1 ∷ 16 ∷ []) ++ to_be_bytes w128 hop ++ (0 ∷ []) ++ prefixes.now) }
{
    let mut value = Vec::new(alloc);
    value.extend_from_slice(&[0, 2, 1, 16])?;
    value.extend_from_slice(&hop.to_be_bytes())?;
    value.push(0)?;
    value.extend_from_slice(prefixes)?;
    Ok(value)
}

/// How prefixes of the family are withdrawn.
pub fn withdrawn_part(family: Family) -> Part
    ensures { result ≡ withdrawn_part family }
{
    match family {
        Family::V4 => Part::Withdrawn,
        Family::V6 => Part::Unreached,
    }
}

/// How prefixes of the family are announced with the terms.
pub fn announced_part(
    alloc: Global,
    family: Family,
    peering: &Peering,
    terms: &Terms,
) -> Result<Part, NoMemory>
    requires communities { length terms.now.communities ≤ 1024 }
    requires large { length terms.now.large ≤ 1024 }
    ensures { IfOk result (λ part. part ≡ announced_part family peering.now terms.now) }
{
    let mut front = front_octets(alloc, family, peering, terms)?;
    match family {
        Family::V4 => {
            put_larges(alloc, terms.large.as_slice(), &mut front)?;
            Ok(Part::Announced {
                attributes: Sequence::from_vec(front),
            })
        }
        Family::V6 => {
            let mut back = Vec::new(alloc);
            put_larges(alloc, terms.large.as_slice(), &mut back)?;
            Ok(Part::Reached {
                front: Sequence::from_vec(front),
                hop: peering.next_hop_v6,
                back: Sequence::from_vec(back),
            })
        }
    }
}

/// The octets of the path attributes in front, ascending by type: ORIGIN, AS_PATH and, of IPv4
/// routes, NEXT_HOP (RFC 4271, sections 5.1.1 to 5.1.3), LOCAL_PREF inside one AS alone, 0 where
/// the terms have none (section 5.1.5), and COMMUNITIES where there are some (RFC 1997).
fn front_octets(
    alloc: Global,
    family: Family,
    peering: &Peering,
    terms: &Terms,
) -> Result<Vec<u8>, NoMemory>
    requires { length terms.now.communities ≤ 1024 }
    ensures { IfOk result (λ bytes. bytes.items ≡ front_of family peering.now terms.now) }
{
    let mut bytes = Vec::new(alloc);
    bytes.extend_from_slice(&[0x40, 1, 1, 2])?;
    put_path(peering.own, &mut bytes)?;
    put_hop(family, peering.next_hop, &mut bytes)?;
    put_preference(peering.own, terms.preference, &mut bytes)?;
    put_communities(alloc, terms.communities.as_slice(), &mut bytes)?;
    Ok(bytes)
}

fn put_path(own: Option<u32>, out: &mut Vec<u8>) -> Result<(), NoMemory>
    ensures { OnOk result (out.new.items ≡ out.old.items ++ path_attribute own) }
{
    match own {
        None => out.extend_from_slice(&[0x40, 2, 0])?,
        Some(own) => {
            out.extend_from_slice(&[0x40, 2, 6, 2, 1])?;
            put_u32(own, out)?;
        }
    }
    Ok(())
}

fn put_hop(family: Family, hop: u32, out: &mut Vec<u8>) -> Result<(), NoMemory>
    ensures { OnOk result (out.new.items ≡ out.old.items ++ hop_attribute family hop) }
{
    match family {
        Family::V4 => {
            out.extend_from_slice(&[0x40, 3, 4])?;
            put_u32(hop, out)
        }
        Family::V6 => Ok(()),
    }
}

fn put_preference(
    own: Option<u32>,
    preference: Option<u32>,
    out: &mut Vec<u8>,
) -> Result<(), NoMemory>
    ensures { OnOk result (out.new.items ≡ out.old.items ++ preference_attribute own preference) }
{
    if own.is_none() {
        out.extend_from_slice(&[0x40, 5, 4])?;
        put_u32(preference.unwrap_or(0), out)?;
    }
    Ok(())
}

fn put_communities(alloc: Global, numbers: &[u32], out: &mut Vec<u8>) -> Result<(), NoMemory>
    requires { length numbers.now ≤ 1024 }
    ensures { OnOk result (out.new.items ≡ out.old.items ++ communities_attribute numbers.now) }
{
    let value = number_octets(alloc, numbers)?;
    put_optional(0xc0, 8, value.as_slice(), out)
}

fn number_octets(alloc: Global, numbers: &[u32]) -> Result<Vec<u8>, NoMemory>
    ensures { IfOk result (λ bytes. bytes.items ≡ communities_bytes numbers.now) }
{
    let mut bytes = Vec::new(alloc);
    for number in numbers {
        put_u32(*number, &mut bytes)?;
    }
    Ok(bytes)
}

fn put_larges(alloc: Global, numbers: &[LargeCommunity], out: &mut Vec<u8>) -> Result<(), NoMemory>
    requires { length numbers.now ≤ 1024 }
    ensures { OnOk result (out.new.items ≡ out.old.items ++ large_attribute numbers.now) }
{
    let value = larges_octets(alloc, numbers)?;
    put_optional(0xc0, 32, value.as_slice(), out)
}

fn larges_octets(alloc: Global, numbers: &[LargeCommunity]) -> Result<Vec<u8>, NoMemory>
    ensures { IfOk result (λ bytes. bytes.items ≡ larges_bytes numbers.now) }
{
    let mut bytes = Vec::new(alloc);
    for number in numbers {
        put_large(number, &mut bytes)?;
    }
    Ok(bytes)
}

fn put_large(number: &LargeCommunity, out: &mut Vec<u8>) -> Result<(), NoMemory>
    ensures { OnOk result (out.new.items ≡ out.old.items ++ large_octets number.now) }
{
    put_u32(number.global, out)?;
    put_u32(number.first, out)?;
    put_u32(number.second, out)
}
