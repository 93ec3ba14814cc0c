//! Path attributes, read.
ghost use Rattle.std.specs.Prelude.{◌≡◌, ◌*◌, ◌≤◌, IfOk, drop, length};
ghost use Rattle.ip_ranges.specs.declared.family.Family.TheVariants.{V6};
ghost use Rattle.bgp_reading.specs.Places.{ascending_in, behind_at, behind_hop, behind_path};
ghost use Rattle.bgp_reading.specs.Places.{behind_preference, behind_size};
ghost use Rattle.bgp_reading.specs.Places.{communities_in, is_extended, large_in, larges_in};
ghost use Rattle.bgp_reading.specs.Places.{next_hop_in, next_hop_v6_in, number_at};
ghost use Rattle.bgp_reading.specs.Places.{optional_in, own_in, preference_in, reach_in, sender_in};
ghost use Rattle.bgp_reading.specs.Places.{terms_in, value_at, value_size};

use crate::octets::{behind, front, number_at, octet, short_at, wide_in};
use bgp_updates::{Peering, Terms};
use ip_ranges::Family;
use large_numbers::{LargeCommunity, LargeNumbers, larges_from};
use mlb_base::NoMemory;
use pool_config::{CommunityNumbers, numbers_from};
use std::alloc::Global;
use std::collections::BTreeSet;

/// What the attributes tell of the sender.
#[tactic(auto, unfolding(crate::specs::Places::sender_in))]
pub(crate) fn sender_in(family: Family, attributes: &[u8]) -> Peering
    ensures { result ≡ sender_in family attributes.now }
{
    Peering {
        own: own_in(attributes),
        next_hop: next_hop_in(family, behind_path(attributes)),
        next_hop_v6: next_hop_v6_in(family, optional_in(family, attributes)),
    }
}

/// What the attributes tell of the prefixes.
#[tactic(auto, unfolding(crate::specs::Places::terms_in))]
pub(crate) fn read_terms(
    alloc: Global,
    family: Family,
    attributes: &[u8],
) -> Result<Terms, NoMemory>
    ensures value { IfOk result (λ terms. terms ≡ terms_in family attributes.now) }
    ensures communities { IfOk result
        (λ terms. 4 * length terms.communities ≤ length attributes.now) }
    ensures large { IfOk result (λ terms. 12 * length terms.large ≤ length attributes.now) }
{
    let rest = optional_in(family, attributes);
    let communities = read_numbers(alloc, value_at(8, rest))?;
    let large = read_larges(alloc, value_at(32, behind_at(14, behind_at(8, rest))))?;
    let hop = behind_hop(family, behind_path(attributes));
    Ok(Terms {
        preference: preference_in(own_in(attributes), hop),
        communities,
        large,
    })
}

fn own_in(attributes: &[u8]) -> Option<u32>
    ensures { result ≡ own_in attributes.now }
{
    if octet(attributes, 6) == 0 {
        None
    } else {
        Some(number_at(attributes, 9))
    }
}

fn behind_path(attributes: &[u8]) -> &[u8]
    ensures { result.now ≡ behind_path attributes.now }
{
    behind(attributes, 7 + octet(attributes, 6) as usize)
}

fn next_hop_in(family: Family, path: &[u8]) -> u32
    ensures { result ≡ next_hop_in family path.now }
{
    match family {
        Family::V4 => number_at(path, 3),
        Family::V6 => 0,
    }
}

fn behind_hop(family: Family, path: &[u8]) -> &[u8]
    ensures { result.now ≡ behind_hop family path.now }
{
    match family {
        Family::V4 => behind(path, 7),
        Family::V6 => path,
    }
}

fn preference_in(own: Option<u32>, rest: &[u8]) -> Option<u32>
    ensures { result ≡ preference_in own rest.now }
{
    match own {
        None => Some(number_at(rest, 3)),
        Some(_) => None,
    }
}

fn behind_preference(own: Option<u32>, rest: &[u8]) -> &[u8]
    ensures { result.now ≡ behind_preference own rest.now }
{
    match own {
        None => behind(rest, 7),
        Some(_) => rest,
    }
}

/// What follows LOCAL_PREF: the attributes that not each message has.
fn optional_in(family: Family, attributes: &[u8]) -> &[u8]
    ensures { result.now ≡ optional_in family attributes.now }
{
    let hop = behind_hop(family, behind_path(attributes));
    behind_preference(own_in(attributes), hop)
}

fn next_hop_v6_in(family: Family, rest: &[u8]) -> u128
    ensures { result ≡ next_hop_v6_in family rest.now }
{
    match family {
        Family::V4 => 0,
        Family::V6 => wide_in(behind(reach_in(rest), 4)),
    }
}

fn reach_in(rest: &[u8]) -> &[u8]
    ensures { result.now ≡ reach_in rest.now }
{
    value_at(14, behind_at(8, rest))
}

/// The octets of the prefixes in MP_REACH_NLRI.
pub(crate) fn reached_in(attributes: &[u8]) -> &[u8]
    ensures { result.now ≡ drop 21 (reach_in (optional_in V6 attributes.now)) }
{
    behind(reach_in(optional_in(Family::V6, attributes)), 21)
}

/// The value of the attribute of this type with which the octets begin, and no octets where they
/// begin with another one.
#[tactic(auto, unfolding(crate::specs::Places::value_at))]
pub(crate) fn value_at(kind: u8, rest: &[u8]) -> &[u8]
    ensures { result.now ≡ value_at kind rest.now }
{
    if octet(rest, 1) == kind {
        front(behind_size(rest), value_size(rest))
    } else {
        &[]
    }
}

/// What follows this attribute, where they begin with it.
#[tactic(auto, unfolding(crate::specs::Places::behind_at))]
fn behind_at(kind: u8, rest: &[u8]) -> &[u8]
    ensures { result.now ≡ behind_at kind rest.now }
{
    if octet(rest, 1) == kind {
        behind(behind_size(rest), value_size(rest))
    } else {
        rest
    }
}

fn is_extended(rest: &[u8]) -> bool
    ensures { result ≡ is_extended rest.now }
{
    octet(rest, 0) / 16 % 2 == 1
}

fn value_size(rest: &[u8]) -> usize
    ensures { result ≡ value_size rest.now }
{
    if is_extended(rest) {
        short_at(rest, 2) as usize
    } else {
        octet(rest, 2) as usize
    }
}

fn behind_size(rest: &[u8]) -> &[u8]
    ensures { result.now ≡ behind_size rest.now }
{
    if is_extended(rest) {
        behind(rest, 4)
    } else {
        behind(rest, 3)
    }
}

/// The numbers of four octets each, ascending, each once.
fn read_numbers(alloc: Global, bytes: &[u8]) -> Result<CommunityNumbers, NoMemory>
    ensures value { IfOk result (λ numbers. numbers ≡ ascending_in bytes.now) }
{
    let mut numbers = BTreeSet::new(alloc);
    let mut rest = bytes;
    while let [a, b, c, d, tail @ ..] = rest {
        let _is_new = numbers.insert(u32::from_be_bytes([*a, *b, *c, *d]))?;
        rest = tail;
    }
    numbers_from(alloc, &numbers)
}

/// The large communities of twelve octets each, ascending, each once.
fn read_larges(alloc: Global, bytes: &[u8]) -> Result<LargeNumbers, NoMemory>
    ensures { IfOk result (λ numbers. numbers ≡ larges_in bytes.now) }
{
    let mut numbers = BTreeSet::new(alloc);
    let mut rest = bytes;
    while rest.len() >= 12 {
        let _is_new = numbers.insert(large_at(rest))?;
        rest = behind(rest, 12);
    }
    larges_from(alloc, &numbers)
}

fn large_at(bytes: &[u8]) -> LargeCommunity
    ensures { result ≡ record { global = number_at 0 bytes.now; first = number_at 4 bytes.now; second = number_at 8 bytes.now } }
{
    LargeCommunity {
        global: number_at(bytes, 0),
        first: number_at(bytes, 4),
        second: number_at(bytes, 8),
    }
}
