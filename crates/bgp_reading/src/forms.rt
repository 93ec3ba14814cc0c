//! Messages of one form, read.
ghost use Rattle.std.specs.Prelude.{◌≡◌, ◌≤◌, IfOk, length};
ghost use Rattle.bgp_reading.specs.Reading.{announced_octets, announcement_of, attributes_in};
ghost use Rattle.bgp_reading.specs.Reading.{withdrawal_of, withdrawn_octets};

use crate::attributes::{reached_in, read_terms, sender_in, value_at};
use crate::octets::{behind, front, short_at};
use crate::parts::UpdateParts;
use crate::prefixes::read_prefixes;
use crate::spelling::{are_announced, are_withdrawn};
use ip_ranges::Family;
use large_numbers::larges_from;
use mlb_base::{NoMemory, Sequence};
use pool_config::numbers_from;
use std::alloc::Global;
use std::collections::BTreeSet;

/// A message of withdrawn routes of the family alone.
#[tactic(auto, unfolding(crate::specs::Reading::withdrawal_of))]
pub(crate) fn read_withdrawal(
    alloc: Global,
    family: Family,
    bytes: &[u8],
) -> Result<Option<UpdateParts>, NoMemory>
    requires { length bytes.now ≤ 4096 }
    ensures { IfOk result (λ found. found ≡ withdrawal_of family bytes.now) }
{
    let withdrawn = read_prefixes(alloc, family, withdrawn_octets(family, bytes))?;
    let is_spelled = are_withdrawn(alloc, family, bytes, withdrawn.as_slice())?;
    if !is_spelled {
        return Ok(None);
    }
    let communities = numbers_from(alloc, &BTreeSet::new(alloc))?;
    let large = larges_from(alloc, &BTreeSet::new(alloc))?;
    Ok(Some(UpdateParts {
        withdrawn,
        communities,
        large,
        preference: None,
        announced: Sequence::new(alloc),
    }))
}

/// The octets of withdrawn prefixes: the withdrawn routes, or those in MP_UNREACH_NLRI.
fn withdrawn_octets(family: Family, bytes: &[u8]) -> &[u8]
    ensures { result.now ≡ withdrawn_octets family bytes.now }
{
    match family {
        Family::V4 => front(behind(bytes, 21), short_at(bytes, 19) as usize),
        Family::V6 => behind(value_at(15, attributes_in(bytes)), 3),
    }
}

fn attributes_in(bytes: &[u8]) -> &[u8]
    ensures { result.now ≡ attributes_in bytes.now }
{
    front(behind(bytes, 23), short_at(bytes, 21) as usize)
}

/// A message of one group of announced routes of the family.
#[tactic(auto, unfolding(crate::specs::Reading::announcement_of))]
pub(crate) fn read_announcement(
    alloc: Global,
    family: Family,
    bytes: &[u8],
) -> Result<Option<UpdateParts>, NoMemory>
    requires { length bytes.now ≤ 4096 }
    ensures { IfOk result (λ found. found ≡ announcement_of family bytes.now) }
{
    let attributes = attributes_in(bytes);
    let sender = sender_in(family, attributes);
    let terms = read_terms(alloc, family, attributes)?;
    let announced = read_prefixes(alloc, family, announced_octets(family, bytes))?;
    let is_spelled = are_announced(alloc, family, bytes, &sender, &terms, announced.as_slice())?;
    if !is_spelled {
        return Ok(None);
    }
    Ok(Some(UpdateParts {
        withdrawn: Sequence::new(alloc),
        communities: terms.communities,
        large: terms.large,
        preference: terms.preference,
        announced,
    }))
}

/// The octets of announced prefixes: those after the attributes, or those in MP_REACH_NLRI.
fn announced_octets(family: Family, bytes: &[u8]) -> &[u8]
    ensures { result.now ≡ announced_octets family bytes.now }
{
    match family {
        Family::V4 => behind(behind(bytes, 23), short_at(bytes, 21) as usize),
        Family::V6 => reached_in(attributes_in(bytes)),
    }
}
