//! The first fault among the objects of a configuration, stage by stage.
ghost use Rattle.std.specs.Prelude.{◌≡◌, IfOk, Some};
ghost use Rattle.std.specs.Option.{option_map};
ghost use Rattle.pool_config.specs.Found.{fault_of};
ghost use Rattle.pool_config.specs.Lists.{lists_of};
ghost use Rattle.pool_config.specs.Objects.{objects_of};
ghost use Rattle.pool_config.specs.Search.{found_among, pool_rows, later_rows, overlap_rows};
ghost use Rattle.pool_config.specs.Search.{selector_rows, advertised_rows, name_rows};

use crate::advertised::{bgp_of_unknown_peer, bgp_too_far};
use crate::clashes::clashing_bgp;
use crate::communities::{
    bgp_of_bad_text, bgp_of_many_large, bgp_of_many_texts, bgp_of_unknown, list_of_bad_value,
    list_of_repeat,
};
use crate::compiled::{CompiledBgp, CompiledPool};
use crate::object_set::ObjectSet;
use crate::overlap::overlapping_pool;
use crate::pool_faults::{empty_pool, pool_of_many, unreadable_pool};
use crate::search::name_at;
use crate::selector_faults::{
    bgp_of_bad_selector, l2_of_bad_selector, peer_of_bad_selector, pool_of_bad_selector,
};
use kube_labels::Text;
use kube_model::{Cause, Kind};
use mlb_base::NoMemory;
use std::alloc::Global;

/// The most pools of a configuration.
const MOST_POOLS: usize = 1024;

/// An object that is at fault, and why.
#[derive(Clone, Copy)]
pub(crate) struct Found<'a> {
    pub(crate) cause: Cause,
    pub(crate) kind: Kind,
    pub(crate) name: &'a Text,
}

fn at_fault(cause: Cause, kind: Kind, name: &Text) -> Option<Found<'_>>
    ensures { option_map fault_of result ≡ Some (record { cause = cause; kind = kind; name = name.now }) }
{
    Some(Found { cause, kind, name })
}

/// By the limits, and what is wrong with the pools by themselves.
pub(crate) fn found_in_pools(
    alloc: Global,
    objects: &ObjectSet,
) -> Result<Option<Found<'_>>, NoMemory>
    ensures { IfOk result (λ found. option_map fault_of found
        ≡ found_among (objects_of objects.now) pool_rows) }
{
    if let Some(name) = name_at(&objects.pools, MOST_POOLS) {
        return Ok(at_fault(Cause::Limit, Kind::Pool, name));
    }
    if let Some(name) = pool_of_many(&objects.pools) {
        return Ok(at_fault(Cause::Limit, Kind::Pool, name));
    }
    if let Some(name) = bgp_of_many_texts(alloc, &objects.bgps)? {
        return Ok(at_fault(Cause::Limit, Kind::Bgp, name));
    }
    if let Some(name) = bgp_of_many_large(alloc, &objects.communities, &objects.bgps)? {
        return Ok(at_fault(Cause::Limit, Kind::Bgp, name));
    }
    if let Some(name) = unreadable_pool(&objects.pools) {
        return Ok(at_fault(Cause::EntryUnreadable, Kind::Pool, name));
    }
    if let Some(name) = empty_pool(&objects.pools) {
        return Ok(at_fault(Cause::EmptyPool, Kind::Pool, name));
    }
    Ok(None)
}

/// By what is wrong beside the pools by themselves.
pub(crate) fn found_beside_pools<'a>(
    alloc: Global,
    objects: &'a ObjectSet,
    pools: &'a [CompiledPool],
    bgp: &'a [CompiledBgp],
) -> Result<Option<Found<'a>>, NoMemory>
    requires pools { pools.now ≡ (lists_of (objects_of objects.now)).pools }
    requires bgp { bgp.now ≡ (lists_of (objects_of objects.now)).bgp }
    ensures { IfOk result (λ found. option_map fault_of found
        ≡ found_among (objects_of objects.now) later_rows) }
{
    if let Some(name) = overlapping_pool(alloc, pools)? {
        return Ok(at_fault(Cause::Overlap, Kind::Pool, name));
    }
    if let Some(found) = found_in_selectors(objects) {
        return Ok(Some(found));
    }
    if let Some(found) = found_in_advertised(alloc, objects, pools, bgp)? {
        return Ok(Some(found));
    }
    found_in_names(alloc, objects)
}

/// By selectors that are refused.
fn found_in_selectors(objects: &ObjectSet) -> Option<Found<'_>>
    ensures { option_map fault_of result ≡ found_among (objects_of objects.now) selector_rows }
{
    if let Some(name) = pool_of_bad_selector(&objects.pools) {
        return at_fault(Cause::SelectorUnreadable, Kind::Pool, name);
    }
    if let Some(name) = l2_of_bad_selector(&objects.l2s) {
        return at_fault(Cause::SelectorUnreadable, Kind::L2, name);
    }
    if let Some(name) = bgp_of_bad_selector(&objects.bgps) {
        return at_fault(Cause::SelectorUnreadable, Kind::Bgp, name);
    }
    if let Some(name) = peer_of_bad_selector(&objects.peers) {
        return at_fault(Cause::SelectorUnreadable, Kind::Peer, name);
    }
    None
}

/// By how advertisements and pools fit.
fn found_in_advertised<'a>(
    alloc: Global,
    objects: &'a ObjectSet,
    pools: &'a [CompiledPool],
    bgp: &'a [CompiledBgp],
) -> Result<Option<Found<'a>>, NoMemory>
    requires pools { pools.now ≡ (lists_of (objects_of objects.now)).pools }
    requires bgp { bgp.now ≡ (lists_of (objects_of objects.now)).bgp }
    ensures { IfOk result (λ found. option_map fault_of found
        ≡ found_among (objects_of objects.now) advertised_rows) }
{
    if let Some(name) = bgp_too_far(pools, bgp) {
        return Ok(at_fault(Cause::Aggregation, Kind::Bgp, name));
    }
    if let Some(name) = clashing_bgp(alloc, pools, bgp)? {
        return Ok(at_fault(Cause::LocalPrefClash, Kind::Bgp, name));
    }
    Ok(None)
}

/// By communities, and by the peers that advertisements name.
fn found_in_names(alloc: Global, objects: &ObjectSet) -> Result<Option<Found<'_>>, NoMemory>
    ensures { IfOk result (λ found. option_map fault_of found
        ≡ found_among (objects_of objects.now) name_rows) }
{
    if let Some(name) = bgp_of_unknown(&objects.communities, &objects.bgps) {
        return Ok(at_fault(Cause::CommunityUnknown, Kind::Bgp, name));
    }
    if let Some(name) = list_of_bad_value(&objects.communities) {
        return Ok(at_fault(Cause::CommunityUnreadable, Kind::Community, name));
    }
    if let Some(name) = bgp_of_bad_text(&objects.bgps) {
        return Ok(at_fault(Cause::CommunityUnreadable, Kind::Bgp, name));
    }
    if let Some(name) = list_of_repeat(alloc, &objects.communities)? {
        return Ok(at_fault(Cause::CommunityTwice, Kind::Community, name));
    }
    if let Some(name) = bgp_of_unknown_peer(&objects.peers, &objects.bgps) {
        return Ok(at_fault(Cause::PeerUnknown, Kind::Bgp, name));
    }
    Ok(None)
}
