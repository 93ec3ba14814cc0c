//! Selectors, and those that are refused.
ghost use Rattle.std.specs.Prelude.{◌≡◌, ◌++◌, IfOk, option_map};
ghost use Rattle.std.specs.Option.{option_copied};
ghost use Rattle.pool_config.specs.Objects.{named};
ghost use Rattle.pool_config.specs.Lists.{read_selector, selectors_of};
ghost use Rattle.pool_config.specs.Search.{first_name, has_bad_selector, has_bad_allocation};
ghost use Rattle.pool_config.specs.Search.{has_bad_in_l2};
ghost use Rattle.pool_config.specs.Search.{has_bad_in_bgp, has_bad_in_peer};

use crate::search::first_name;
use kube_labels::{Selector, SelectorList, Text, are_well_formed};
use kube_model::{BgpAdv, BgpPeer, L2Adv, Pool, SelectorText, SelectorTexts};
use mlb_base::{NoMemory, TryCopy};
use std::alloc::Global;
use versioned_map::VersionedMap;

/// The selector, or nothing where it is refused.
fn read_selector(text: &SelectorText) -> Result<Option<Selector>, NoMemory>
    ensures { IfOk result (λ made. made ≡ read_selector text.now) }
{
    let made = Selector::new(text.labels.copy()?, text.expressions.copy()?);
    Ok(made.ok())
}

/// The selectors that can be read, as they are listed.
pub(crate) fn read_selectors(alloc: Global, texts: &SelectorTexts) -> Result<SelectorList, NoMemory>
    ensures { IfOk result (λ made. made ≡ selectors_of texts.now) }
{
    let mut made = SelectorList::new(alloc);
    for text in texts.as_slice() {
        if let Some(selector) = read_selector(text)? {
            made.push(selector)?;
        }
    }
    Ok(made)
}

fn has_bad_selector(texts: &SelectorTexts) -> bool
    ensures { result ≡ has_bad_selector texts.now }
{
    texts
        .as_slice()
        .iter()
        .any(|text| !are_well_formed(text.expressions.as_slice()))
}

fn either_has_bad(first: &SelectorTexts, second: &SelectorTexts) -> bool
    ensures { result ≡ has_bad_selector (first.now ++ second.now) }
{
    has_bad_selector(first) || has_bad_selector(second)
}

fn has_bad_allocation(pool: &Pool) -> bool
    ensures { result ≡ has_bad_allocation pool.now }
{
    match &pool.allocation {
        None => false,
        Some(allocation) => either_has_bad(
            &allocation.namespace_selectors,
            &allocation.service_selectors,
        ),
    }
}

fn has_bad_in_l2(advertisement: &L2Adv) -> bool
    ensures { result ≡ has_bad_in_l2 advertisement.now }
{
    either_has_bad(&advertisement.pool_selectors, &advertisement.node_selectors)
}

fn has_bad_in_bgp(advertisement: &BgpAdv) -> bool
    ensures { result ≡ has_bad_in_bgp advertisement.now }
{
    either_has_bad(&advertisement.pool_selectors, &advertisement.node_selectors)
}

fn has_bad_in_peer(peer: &BgpPeer) -> bool
    ensures { result ≡ has_bad_in_peer peer.now }
{
    has_bad_selector(&peer.node_selectors)
}

/// The first pool with a selector that is refused.
pub(crate) fn pool_of_bad_selector(pools: &VersionedMap<Text, Pool>) -> Option<&Text>
    ensures { option_copied result ≡ first_name has_bad_allocation (named pools.now) }
{
    first_name(pools, has_bad_allocation)
}

/// The first L2Advertisement with one.
pub(crate) fn l2_of_bad_selector(l2s: &VersionedMap<Text, L2Adv>) -> Option<&Text>
    ensures { option_copied result ≡ first_name has_bad_in_l2 (named l2s.now) }
{
    first_name(l2s, has_bad_in_l2)
}

/// The first BGPAdvertisement with one.
pub(crate) fn bgp_of_bad_selector(bgps: &VersionedMap<Text, BgpAdv>) -> Option<&Text>
    ensures { option_copied result ≡ first_name has_bad_in_bgp (named bgps.now) }
{
    first_name(bgps, has_bad_in_bgp)
}

/// The first BGPPeer with one.
pub(crate) fn peer_of_bad_selector(peers: &VersionedMap<Text, BgpPeer>) -> Option<&Text>
    ensures { option_copied result ≡ first_name has_bad_in_peer (named peers.now) }
{
    first_name(peers, has_bad_in_peer)
}
