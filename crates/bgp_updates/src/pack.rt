//! As many prefixes a message as fit.
ghost use Rattle.std.specs.Prelude.{◌≡◌, ◌+◌, ◌++◌, ◌≤◌, All, IfOk, OnOk, [], length};
ghost use Rattle.bgp_updates.specs.Message.{Fits, fitting, message_of, part_bytes, part_messages};
ghost use Rattle.bgp_updates.specs.Message.{part_size, reach_attribute, unreach_attribute};

use crate::part::Part;
use crate::prefix::octets;
use crate::route::MessageList;
use crate::writing::{message_octets, prefix_octets, put_reach, unreach_octets};
use ip_ranges::Prefix;
use mlb_base::{NoMemory, Sequence};
use std::alloc::Global;

/// Appends the messages that tell of the prefixes so, as many prefixes in each as fit.
pub(crate) fn put_messages(
    alloc: Global,
    messages: &mut MessageList,
    part: &Part,
    prefixes: &[Prefix],
) -> Result<(), NoMemory>
    requires short { All Fits prefixes.now }
    requires room { part_size part.now ≤ 4000 }
    ensures { OnOk result (messages.new ≡ messages.old ++ part_messages part.now prefixes.now) }
{
    let room = 4096 - part_size(part);
    let mut rest = prefixes;
    while !rest.is_empty() {
        let count = count_fitting(rest, room);
        let (front, back) = rest.split_at(count);
        let bytes = prefix_octets(alloc, front)?;
        messages.push(Sequence::from_vec(part_octets(alloc, part, bytes.as_slice())?))?;
        rest = back;
    }
    Ok(())
}

/// How many octets at most a message has beside the prefixes' own.
fn part_size(part: &Part) -> usize
    requires { part_size part.now ≤ 4000 }
    ensures { result ≡ part_size part.now }
{
    match part {
        Part::Withdrawn => 23,
        Part::Unreached => 30,
        Part::Announced { attributes } => 23 + attributes.len(),
        Part::Reached { front, back, .. } => 48 + front.len() + back.len(),
    }
}

/// The octets of the message that tells of the prefixes so.
#[tactic(auto, unfolding(crate::specs::Message::part_bytes))]
pub fn part_octets(alloc: Global, part: &Part, prefixes: &[u8]) -> Result<Vec<u8>, NoMemory>
    requires { part_size part.now + length prefixes.now ≤ 65535 }
    ensures { IfOk result (λ m. m.items ≡ part_bytes part.now prefixes.now) }
{
    match part {
        Part::Withdrawn => message_octets(alloc, prefixes, &[], &[]),
        Part::Unreached => unreached(alloc, prefixes),
        Part::Announced { attributes } => {
            message_octets(alloc, &[], attributes.as_slice(), prefixes)
        }
        Part::Reached { front, hop, back } => {
            reached(alloc, front.as_slice(), *hop, back.as_slice(), prefixes)
        }
    }
}

fn unreached(alloc: Global, prefixes: &[u8]) -> Result<Vec<u8>, NoMemory>
    requires { 30 + length prefixes.now ≤ 65535 }
    ensures { IfOk result (λ m. m.items ≡ message_of [] (unreach_attribute prefixes.now) []) }
{
    let attributes = unreach_octets(alloc, prefixes)?;
    message_octets(alloc, &[], attributes.as_slice(), &[])
}

fn reached(
    alloc: Global,
    front: &[u8],
    hop: u128,
    back: &[u8],
    prefixes: &[u8],
) -> Result<Vec<u8>, NoMemory>
    requires { 48 + length front.now + length back.now + length prefixes.now ≤ 65535 }
    ensures { IfOk result (λ m. m.items
        ≡ message_of [] (front.now ++ reach_attribute hop prefixes.now ++ back.now) []) }
{
    let mut attributes = Vec::new(alloc);
    attributes.extend_from_slice(front)?;
    put_reach(alloc, hop, prefixes, &mut attributes)?;
    attributes.extend_from_slice(back)?;
    message_octets(alloc, &[], attributes.as_slice(), &[])
}

/// How many prefixes from the front fit in the room.
fn count_fitting(prefixes: &[Prefix], room: usize) -> usize
    ensures value { result ≡ fitting room prefixes.now }
    ensures within { result ≤ length prefixes.now }
{
    let mut left = room;
    let mut count = 0;
    for prefix in prefixes {
        let size = 1 + octets(prefix);
        if left < size {
            break;
        }
        left -= size;
        count += 1;
    }
    count
}
