//! The messages between two tables.
ghost use Rattle.std.specs.Prelude.{◌≡◌, ◌==◌, if◌then◌else◌, ◌++◌, ◌≤◌, [], None, Some, All, IfOk};
ghost use Rattle.std.specs.Prelude.{OnOk, is_some, length};
ghost use Rattle.std.specs.List.{flat_map};
ghost use Rattle.std.specs.Map.{keys_of};
ghost use Rattle.std.specs.Option.{option_copied};
ghost use Rattle.ip_ranges.specs.declared.family.Family.TheVariants.{V4};
ghost use Rattle.bgp_updates.specs.Between.{group_messages, messages_between, messages_for};
ghost use Rattle.bgp_updates.specs.Between.{number_of_hop, peering_of, HasHops, IsRouteGroup};
ghost use Rattle.bgp_updates.specs.Message.{part_messages, withdrawn_part};
ghost use Rattle.bgp_updates.specs.Received.{changed, gone, groups_from, same_terms, terms_at};
ghost use Rattle.bgp_updates.specs.Tables.{HasFew, IsTable};

use crate::finding::{by_family, route_at};
use crate::grouping::changed_groups;
use crate::pack::put_messages;
use crate::route::{MessageList, Peering, Route, RouteGroup, RouteTable};
use crate::writing::{announced_part, withdrawn_part};
use ip_ranges::{Address, Family, Prefix};
use mlb_base::{NoMemory, Sequence};
use pool_config::CompiledPeer;
use std::alloc::Global;

/// The UPDATE messages that make the new table of the old one, for a peer with this IPv4 next hop,
/// and this IPv6 one (RFC 4271, section 3.1; RFC 4760).
///
/// Of each family, IPv4 first, come the prefixes that have a route in the old table alone, ascending, as withdrawn routes. Then come the
/// routes of the new table that the old one doesn't have equally, in groups of equal preference, equal communities and equal large
/// communities: the groups in the order of their least prefix, the prefixes of a group ascending. A message has as many prefixes as fit in
/// 4,096 octets. The IPv6 next hop is there where the new table has an IPv6 route, so that none is told without its own. `NoMemory` may
/// come at any time.
pub fn updates(
    alloc: Global,
    old: &RouteTable,
    new: &RouteTable,
    peer: &CompiledPeer,
    next_hop: &Address,
    next_hop_v6: Option<&Address>,
) -> Result<MessageList, NoMemory>
    requires hop { next_hop.now.family ≡ V4 }
    requires hop_v6 { HasHops (option_copied next_hop_v6) new.now }
    requires few { All HasFew new.now }
    ensures messages { IfOk result
        (λ messages. messages ≡ messages_between
        (peering_of peer.now next_hop.now (option_copied next_hop_v6.entry)) old.now new.now) }
    ensures fit { IfOk result (λ messages. All (λ message. length message ≤ 4096) messages) }
    ensures old { IsTable old.now }
    ensures new { IsTable new.now }
{
    let peering = peering_of(peer, next_hop, next_hop_v6);
    between(alloc, old.as_slice(), new.as_slice(), &peering)
}

fn peering_of(peer: &CompiledPeer, next_hop: &Address, next_hop_v6: Option<&Address>) -> Peering
    requires hop { next_hop.now.family ≡ V4 }
    ensures { result ≡ peering_of peer.now next_hop.now (option_copied next_hop_v6.entry) }
{
    Peering {
        own: own_of(peer),
        next_hop: next_hop.number as u32,
        next_hop_v6: number_of_hop(next_hop_v6),
    }
}

fn own_of(peer: &CompiledPeer) -> Option<u32>
    ensures { result ≡ (if peer.now.my_asn == peer.now.peer_asn then None
        else Some peer.now.my_asn) }
{
    if peer.my_asn == peer.peer_asn {
        None
    } else {
        Some(peer.my_asn)
    }
}

fn number_of_hop(hop: Option<&Address>) -> u128
    ensures { result ≡ number_of_hop (option_copied hop.entry) }
{
    match hop {
        None => 0,
        Some(hop) => hop.number,
    }
}

fn between(
    alloc: Global,
    old: &[Route],
    new: &[Route],
    peering: &Peering,
) -> Result<MessageList, NoMemory>
    requires old { IsTable old.now }
    requires new { IsTable new.now }
    requires few { All HasFew new.now }
    ensures { IfOk result (λ messages. messages ≡ messages_between peering.now old.now new.now) }
{
    let mut messages = Sequence::new(alloc);
    let (old_v4, old_v6) = by_family(old);
    let (new_v4, new_v6) = by_family(new);
    put_family(alloc, &mut messages, Family::V4, old_v4, new_v4, peering)?;
    put_family(alloc, &mut messages, Family::V6, old_v6, new_v6, peering)?;
    Ok(messages)
}

/// Appends the messages of a family between its routes: those that withdraw, and then those that
/// announce what the old table doesn't have equally.
fn put_family(
    alloc: Global,
    messages: &mut MessageList,
    family: Family,
    old: &[Route],
    new: &[Route],
    peering: &Peering,
) -> Result<(), NoMemory>
    requires old { IsTable old.now }
    requires new { IsTable new.now }
    requires few { All HasFew new.now }
    ensures { OnOk result (messages.new
        ≡ messages.old ++ messages_for family peering.now old.now new.now) }
{
    put_withdrawals(alloc, messages, family, old, new)?;
    let groups = changed_groups(alloc, old, new)?;
    put_groups(alloc, messages, family, peering, groups.as_slice())
}

/// Appends the messages that withdraw what has a route in the old table alone.
fn put_withdrawals(
    alloc: Global,
    messages: &mut MessageList,
    family: Family,
    old: &[Route],
    new: &[Route],
) -> Result<(), NoMemory>
    requires old { IsTable old.now }
    requires new { IsTable new.now }
    ensures { OnOk result (messages.new
        ≡ messages.old ++ part_messages (withdrawn_part family) (keys_of (gone old.now new.now))) }
{
    let gone = gone_prefixes(alloc, old, new)?;
    put_messages(alloc, messages, &withdrawn_part(family), gone.as_slice())
}

fn gone_prefixes(alloc: Global, old: &[Route], new: &[Route]) -> Result<Vec<Prefix>, NoMemory>
    requires { IsTable new.now }
    ensures { IfOk result (λ prefixes. prefixes.items ≡ keys_of (gone old.now new.now)) }
{
    let mut prefixes = Vec::new(alloc);
    for route in old {
        if !is_there(new, &route.prefix) {
            prefixes.push(route.prefix)?;
        }
    }
    Ok(prefixes)
}

fn is_there(table: &[Route], prefix: &Prefix) -> bool
    requires { IsTable table.now }
    ensures { result ≡ is_some (terms_at table.now prefix.now) }
{
    route_at(table, prefix).is_some()
}

fn put_groups(
    alloc: Global,
    messages: &mut MessageList,
    family: Family,
    peering: &Peering,
    groups: &[RouteGroup],
) -> Result<(), NoMemory>
    requires { All IsRouteGroup groups.now }
    ensures { OnOk result (messages.new
        ≡ messages.old ++ flat_map (group_messages family peering.now) groups.now) }
{
    for group in groups {
        let part = announced_part(alloc, family, peering, &group.terms)?;
        put_messages(alloc, messages, &part, group.prefixes.as_slice())?;
    }
    Ok(())
}
