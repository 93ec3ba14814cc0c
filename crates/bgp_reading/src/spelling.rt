//! Parts, written again and compared.
ghost use Rattle.std.specs.Prelude.{◌≡◌, ◌*◌, ◌≤◌, All, IfOk, length};
ghost use Rattle.std.specs.Str.{bytes_eq};
ghost use Rattle.bgp_updates.specs.Message.{Fits, part_message, part_size};
ghost use Rattle.bgp_reading.specs.Reading.{are_announced, are_withdrawn};

use crate::prefixes::are_prefixes;
use bgp_updates::{
    Part, Peering, Terms, announced_part, part_octets, prefix_octets, withdrawn_part,
};
use ip_ranges::{Family, Prefix};
use mlb_base::NoMemory;
use std::alloc::Global;

/// Whether the octets are a message that withdraws the prefixes of the family.
#[tactic(auto, unfolding(crate::specs::Reading::are_withdrawn))]
pub(crate) fn are_withdrawn(
    alloc: Global,
    family: Family,
    bytes: &[u8],
    prefixes: &[Prefix],
) -> Result<bool, NoMemory>
    requires short { length bytes.now ≤ 4096 }
    requires fits { All Fits prefixes.now }
    ensures { IfOk result (λ b. b ≡ are_withdrawn family bytes.now prefixes.now) }
{
    if !are_prefixes(prefixes) {
        return Ok(false);
    }
    is_message(alloc, bytes, &withdrawn_part(family), prefixes)
}

/// Whether the octets are the sender's message that announces the prefixes of the family with these
/// terms.
#[tactic(auto, unfolding(crate::specs::Reading::are_announced))]
pub(crate) fn are_announced(
    alloc: Global,
    family: Family,
    bytes: &[u8],
    sender: &Peering,
    terms: &Terms,
    prefixes: &[Prefix],
) -> Result<bool, NoMemory>
    requires short { length bytes.now ≤ 4096 }
    requires communities { 4 * length terms.now.communities ≤ 4096 }
    requires large { 12 * length terms.now.large ≤ 4096 }
    requires fits { All Fits prefixes.now }
    ensures { IfOk result (λ b. b ≡ are_announced family bytes.now sender.now terms.now
        prefixes.now) }
{
    if !are_prefixes(prefixes) {
        return Ok(false);
    }
    let part = announced_part(alloc, family, sender, terms)?;
    is_message(alloc, bytes, &part, prefixes)
}

/// Whether the octets are the message that tells of the prefixes so.
fn is_message(
    alloc: Global,
    bytes: &[u8],
    part: &Part,
    prefixes: &[Prefix],
) -> Result<bool, NoMemory>
    requires short { length bytes.now ≤ 4096 }
    requires part { part_size part.now ≤ 9000 }
    requires fits { All Fits prefixes.now }
    ensures { IfOk result (λ b. b ≡ bytes_eq (part_message part.now prefixes.now) bytes.now) }
{
    let told = prefix_octets(alloc, prefixes)?;
    if told.len() > bytes.len() {
        return Ok(false);
    }
    let message = part_octets(alloc, part, told.as_slice())?;
    Ok(message.as_slice() == bytes)
}
