//! What a peer is told, by the addresses that contribute.
ghost use Rattle.std.specs.Prelude.{◌≡◌, [], IfOk, OnOk};
ghost use Rattle.std.specs.Map.{keys_of};
ghost use Rattle.std.specs.List.{flat_map};
ghost use Rattle.bgp_routes.specs.Contributors.{is_told, of_address, of_advertisements};
ghost use Rattle.bgp_routes.specs.Contributors.{of_aggregate};
ghost use Rattle.bgp_routes.specs.Uniting.{with_contributions, with_each};

use crate::contributors::{Aggregate, Contributors};
use crate::kept_config::{Advertisement, KeptPeer};
use crate::uniting::UnitedRoutes;
use bgp_updates::RouteTable;
use ip_ranges::Address;
use mlb_base::NoMemory;
use std::alloc::Global;

/// The peer's routes at the prefixes of these addresses.
#[tactic(auto, using(crate::proofs::Placing::with_each_flat))]
pub(crate) fn part_told(
    alloc: Global,
    contributors: &Contributors,
    advertisements: &[Advertisement],
    peer: &KeptPeer,
    addresses: &[Address],
) -> Result<RouteTable, NoMemory>
    ensures { IfOk result (λ table. table
        ≡ with_contributions [] (flat_map
        (of_address contributors.now advertisements.now peer.now) addresses.now)) }
{
    let mut routes = UnitedRoutes::new(alloc);
    add_addresses(&mut routes, contributors, advertisements, peer, addresses)?;
    table_of(routes)
}

/// All routes of the peer.
#[tactic(auto, using(crate::proofs::Placing::with_each_flat))]
pub(crate) fn all_told(
    alloc: Global,
    contributors: &Contributors,
    advertisements: &[Advertisement],
    peer: &KeptPeer,
) -> Result<RouteTable, NoMemory>
    ensures { IfOk result
        (λ table. table ≡ with_contributions []
        (flat_map (of_aggregate contributors.now advertisements.now peer.now)
        (keys_of contributors.now))) }
{
    let mut routes = UnitedRoutes::new(alloc);
    add_aggregates(&mut routes, contributors, advertisements, peer)?;
    table_of(routes)
}

fn table_of(routes: UnitedRoutes) -> Result<RouteTable, NoMemory>
    ensures { IfOk result (λ table. table ≡ routes) }
{
    let routes = routes.into_vec()?;
    Ok(RouteTable::from_vec(routes))
}

fn add_addresses(
    routes: &mut UnitedRoutes,
    contributors: &Contributors,
    advertisements: &[Advertisement],
    peer: &KeptPeer,
    addresses: &[Address],
) -> Result<(), NoMemory>
    ensures { OnOk result (routes.new
        ≡ with_each (of_address contributors.now advertisements.now peer.now) routes.old
        addresses.now) }
{
    for address in addresses {
        add_address(routes, contributors, advertisements, peer, address)?;
    }
    Ok(())
}

fn add_address(
    routes: &mut UnitedRoutes,
    contributors: &Contributors,
    advertisements: &[Advertisement],
    peer: &KeptPeer,
    address: &Address,
) -> Result<(), NoMemory>
    ensures { OnOk result (routes.new
        ≡ with_contributions routes.old
        (of_address contributors.now advertisements.now peer.now address.now)) }
{
    for (place, advertisement) in advertisements.iter().enumerate() {
        if is_told(contributors, peer, address, place, advertisement) {
            let route = peer.route(address, advertisement)?;
            routes.add(route)?;
        }
    }
    Ok(())
}

fn is_told(
    contributors: &Contributors,
    peer: &KeptPeer,
    address: &Address,
    place: usize,
    advertisement: &Advertisement,
) -> bool
    ensures { result ≡ is_told contributors.now peer.now address.now place advertisement.now }
{
    peer.receives(place)
        && contributors
            .one_of(&advertisement.aggregate(place, address))
            .is_some()
}

fn add_aggregates(
    routes: &mut UnitedRoutes,
    contributors: &Contributors,
    advertisements: &[Advertisement],
    peer: &KeptPeer,
) -> Result<(), NoMemory>
    ensures { OnOk result (routes.new
        ≡ with_each (of_aggregate contributors.now advertisements.now peer.now) routes.old
        (keys_of contributors.now)) }
{
    for aggregate in contributors.aggregates() {
        add_aggregate(routes, contributors, advertisements, peer, aggregate)?;
    }
    Ok(())
}

fn add_aggregate(
    routes: &mut UnitedRoutes,
    contributors: &Contributors,
    advertisements: &[Advertisement],
    peer: &KeptPeer,
    aggregate: &Aggregate,
) -> Result<(), NoMemory>
    ensures { OnOk result (routes.new
        ≡ with_contributions routes.old
        (of_aggregate contributors.now advertisements.now peer.now aggregate.now)) }
{
    if !peer.receives(aggregate.advertisement) {
        return Ok(());
    }
    let Some(address) = contributors.one_of(aggregate) else {
        return Ok(());
    };
    let Some(advertisement) = advertisements.get(aggregate.advertisement) else {
        return Ok(());
    };
    routes.add(peer.route(address, advertisement)?)
}
