//! What is held of the configuration for which routes are kept.
ghost use Rattle.std.specs.Prelude.{◌≡◌, ◌≤◌, ◌==◌, if◌then◌else◌, map, IfOk, [], Some, None};
ghost use Rattle.std.specs.Option.{option_copied, option_map};
ghost use Rattle.std.specs.List.{find};
ghost use Rattle.ip_ranges.specs.Values.{IsPrefix, width_of};
ghost use Rattle.bgp_routes.specs.Contributors.{aggregate_of};
ghost use Rattle.bgp_routes.specs.KeptConfig.{AreFew, advertisement_of, choice_at, choice_by};
ghost use Rattle.bgp_routes.specs.KeptConfig.{choice_in, receives, kept_config_for, is_before};
ghost use Rattle.bgp_routes.specs.KeptConfig.{is_chosen, is_kept_of, is_set, length_in, peer_by};
ghost use Rattle.bgp_routes.specs.KeptConfig.{pool_at, pools_of, prefix_of, route_for};
ghost use Rattle.bgp_routes.specs.Parts.{bgp_of};
ghost use Rattle.pool_config.specs.PoolOf.{pool_with};

use crate::announced::is_for;
use crate::contributors::Aggregate;
use crate::finding::peer_among;
use crate::peers::peers_of;
use crate::uniting::PrefixKey;
use bgp_updates::Route;
use ip_ranges::{Address, Family, Prefix, mask};
use kube_labels::{Labels, Text};
use kube_model::{LengthV4, LengthV6};
use large_numbers::LargeNumbers;
use mlb_base::{NoMemory, Sequence, TryCopy};
use pool_config::{
    ChoosesPools, CommunityNumbers, CompiledBgp, CompiledPeer, CompiledPool, SelectsNodes,
};
use speaker_view::View;
use std::alloc::Global;
use std::cmp::Ordering;
use std::marker::Model;

/// What is held of a BGPAdvertisement (MetalLB).
#[derive(Drop)]
pub(crate) struct Advertisement {
    length: LengthV4,
    length_v6: LengthV6,
    local_pref: u32,
    communities: CommunityNumbers,
    large: LargeNumbers,
}

/// What is held of a BGPPeer (MetalLB), with which of the advertisements are for it on the node.
#[derive(Drop)]
pub(crate) struct KeptPeer {
    name: Text,
    my_asn: u32,
    peer_asn: u32,
    receives: Sequence<bool>,
}

/// The advertisements and the peers of a configuration, and for each pool which of the
/// advertisements choose it and select the node.
#[derive(Drop)]
pub(crate) struct KeptConfig {
    advertisements: Sequence<Advertisement>,
    choices: Sequence<Sequence<bool>>,
    peers: Sequence<KeptPeer>,
}

impl Model for KeptConfig {
    ghost use Rattle.std.specs.Prelude.{map};
    ghost use Rattle.pool_config.specs.ConfigValue.{Ascend};
    ghost use Rattle.bgp_routes.specs.KeptConfig.{AreFew, KeptConfigValue};

    ghost Value = { KeptConfigValue };

    ghost view = { λ h. record { advertisements = h.advertisements; choices = h.choices; peers = h.peers } };

    ghost invariant = { λ h. AreFew h.advertisements × Ascend (map (λ peer. peer.name) h.peers) };
}

impl KeptConfig {
    /// Nothing is held, which takes no memory.
    pub(crate) fn nothing(alloc: Global) -> KeptConfig
        ensures { result ≡ record { advertisements = []; choices = []; peers = [] } }
    {
        KeptConfig {
            advertisements: Sequence::new(alloc),
            choices: Sequence::new(alloc),
            peers: Sequence::new(alloc),
        }
    }

    /// What is to be held of the view's configuration in force.
    pub(crate) fn by(alloc: Global, view: &View, node: &Text) -> Result<KeptConfig, NoMemory>
        ensures { IfOk result (λ held. held ≡ kept_config_for view.now node.now) }
    {
        let labels = view.node_labels(node);
        let bgp = bgp_of(view);
        let advertisements = advertisements_of(alloc, bgp)?;
        let choices = choices_of(alloc, labels, bgp, pools_of(view))?;
        let peers = peers_by(alloc, labels, bgp, peers_of(view))?;
        Ok(KeptConfig {
            advertisements,
            choices,
            peers,
        })
    }

    pub(crate) fn advertisements(&self) -> &[Advertisement]
        ensures advertisements { result.now ≡ self.now.advertisements }
        ensures few { AreFew self.now.advertisements }
    {
        self.advertisements.as_slice()
    }

    /// The peer of this one's name and AS numbers, found in the logarithm of the number of peers.
    pub(crate) fn peer(&self, peer: &CompiledPeer) -> Option<&KeptPeer>
        ensures { option_copied result ≡ find (is_kept_of peer.now) self.now.peers }
    {
        peer_among(self.peers.as_slice(), peer)
    }

    /// Which of the advertisements choose the address's pool and select the node, where the address
    /// is announced from it.
    pub(crate) fn choice_at(&self, view: &View, node: &Text, address: &Address) -> &[bool]
        requires { self.now ≡ kept_config_for view.now node.now }
        ensures { result.now ≡ choice_at view.now node.now address.now }
    {
        if view.is_announced_from(address, node) {
            self.choice_in(pool_of(view, address))
        } else {
            &[]
        }
    }

    fn choice_in(&self, pool: Option<usize>) -> &[bool]
        ensures { result.now ≡ choice_in self.now.choices pool }
    {
        let Some(pool) = pool else {
            return &[];
        };
        match self.choices.as_slice().get(pool) {
            Some(choice) => choice.as_slice(),
            None => &[],
        }
    }
}

impl Advertisement {
    fn of(advertisement: &CompiledBgp) -> Result<Advertisement, NoMemory>
        ensures { IfOk result (λ held. held ≡ advertisement_of advertisement.now) }
    {
        Ok(Advertisement {
            length: advertisement.length,
            length_v6: advertisement.length_v6,
            local_pref: advertisement.local_pref,
            communities: advertisement.communities.copy()?,
            large: advertisement.large.copy()?,
        })
    }

    /// How long the family's prefixes are.
    fn length(&self, family: Family) -> u8
        ensures length { result ≡ length_in family self.now }
        ensures fits { result ≤ width_of family }
    {
        match family {
            Family::V4 => self.length.bits(),
            Family::V6 => self.length_v6.bits(),
        }
    }

    /// The address masked to its family's length.
    fn prefix(&self, address: &Address) -> Prefix
        ensures value { result ≡ prefix_of self.now address.now }
        ensures prefix { IsPrefix result }
    {
        mask(address, self.length(address.family))
    }

    /// The address's own aggregate, where the advertisement stands at the place.
    pub(crate) fn aggregate(&self, place: usize, address: &Address) -> Aggregate
        ensures { result ≡ aggregate_of place self.now address.now }
    {
        Aggregate {
            place: PrefixKey::of(&self.prefix(address)),
            advertisement: place,
        }
    }
}

impl KeptPeer {
    fn by(
        alloc: Global,
        labels: &Labels,
        bgp: &[CompiledBgp],
        peer: &CompiledPeer,
    ) -> Result<KeptPeer, NoMemory>
        ensures { IfOk result (λ held. held ≡ peer_by labels.now bgp.now peer.now) }
    {
        let receives = all_receives(alloc, labels, bgp, peer)?;
        Ok(KeptPeer {
            name: peer.name.copy()?,
            my_asn: peer.my_asn,
            peer_asn: peer.peer_asn,
            receives,
        })
    }

    /// Whether its name comes before this one's.
    pub(crate) fn is_before(&self, peer: &CompiledPeer) -> bool
        ensures { result ≡ is_before peer.now self.now }
    {
        self.name.cmp(&peer.name) == Ordering::Less
    }

    pub(crate) fn is_of(&self, peer: &CompiledPeer) -> bool
        ensures { result ≡ is_kept_of peer.now self.now }
    {
        self.name == peer.name && self.my_asn == peer.my_asn && self.peer_asn == peer.peer_asn
    }

    /// Whether the advertisement at the place is for the peer, on the node.
    pub(crate) fn receives(&self, place: usize) -> bool
        ensures { result ≡ is_set self.now.receives place }
    {
        is_set(self.receives.as_slice(), place)
    }

    fn told(&self, preference: u32) -> Option<u32>
        ensures { result ≡ (if self.now.my_asn == self.now.peer_asn then Some preference
            else None) }
    {
        if self.my_asn == self.peer_asn {
            Some(preference)
        } else {
            None
        }
    }

    /// What the advertisement contributes for the address.
    pub(crate) fn route(
        &self,
        address: &Address,
        advertisement: &Advertisement,
    ) -> Result<Route, NoMemory>
        ensures value { IfOk result (λ route. route
            ≡ route_for self.now address.now advertisement.now) }
        ensures prefix { IfOk result (λ route. IsPrefix route.0) }
    {
        let prefix = advertisement.prefix(address);
        let communities = advertisement.communities.copy()?;
        let large = advertisement.large.copy()?;
        Ok(Route {
            prefix,
            preference: self.told(advertisement.local_pref),
            communities,
            large,
        })
    }
}

/// Whether the flag at the place is set. There is none past the end.
pub(crate) fn is_set(flags: &[bool], place: usize) -> bool
    ensures { result ≡ is_set flags.now place }
{
    flags.get(place).copied().unwrap_or(false)
}

/// The BGPAdvertisements of the configuration in force.
fn bgp_of(view: &View) -> &[CompiledBgp]
    ensures advertisements { result.now ≡ bgp_of view.now }
    ensures few { AreFew (map advertisement_of (bgp_of view.now)) }
{
    match view.config() {
        None => &[],
        Some(config) => config.bgp.as_slice(),
    }
}

fn pools_of(view: &View) -> &[CompiledPool]
    ensures { result.now ≡ pools_of view.now }
{
    match view.config() {
        None => &[],
        Some(config) => config.pools.as_slice(),
    }
}

/// The place of the pool that has the address.
fn pool_of(view: &View, address: &Address) -> Option<usize>
    ensures { pool_at (pools_of view.now) result ≡ pool_with (pools_of view.now) address.now }
{
    match view.config() {
        None => None,
        Some(config) => config.pool_of(address),
    }
}

fn advertisements_of(
    alloc: Global,
    bgp: &[CompiledBgp],
) -> Result<Sequence<Advertisement>, NoMemory>
    ensures { IfOk result (λ advertisements. advertisements ≡ map advertisement_of bgp.now) }
{
    let mut advertisements = Sequence::new(alloc);
    for advertisement in bgp {
        advertisements.push(Advertisement::of(advertisement)?)?;
    }
    Ok(advertisements)
}

fn choices_of(
    alloc: Global,
    labels: &Labels,
    bgp: &[CompiledBgp],
    pools: &[CompiledPool],
) -> Result<Sequence<Sequence<bool>>, NoMemory>
    ensures { IfOk result (λ choices. choices ≡ map (choice_by labels.now bgp.now) pools.now) }
{
    let mut choices = Sequence::new(alloc);
    for pool in pools {
        choices.push(choice_by(alloc, labels, bgp, pool)?)?;
    }
    Ok(choices)
}

fn choice_by(
    alloc: Global,
    labels: &Labels,
    bgp: &[CompiledBgp],
    pool: &CompiledPool,
) -> Result<Sequence<bool>, NoMemory>
    ensures { IfOk result (λ choice. choice ≡ choice_by labels.now bgp.now pool.now) }
{
    let mut choice = Sequence::new(alloc);
    for advertisement in bgp {
        choice.push(is_chosen(labels, pool, advertisement))?;
    }
    Ok(choice)
}

fn is_chosen(labels: &Labels, pool: &CompiledPool, advertisement: &CompiledBgp) -> bool
    ensures { result ≡ is_chosen labels.now pool.now advertisement.now }
{
    advertisement.chooses(pool) && advertisement.selects(labels)
}

fn peers_by(
    alloc: Global,
    labels: &Labels,
    bgp: &[CompiledBgp],
    peers: &[CompiledPeer],
) -> Result<Sequence<KeptPeer>, NoMemory>
    ensures { IfOk result (λ held. held ≡ map (peer_by labels.now bgp.now) peers.now) }
{
    let mut held = Sequence::new(alloc);
    for peer in peers {
        held.push(KeptPeer::by(alloc, labels, bgp, peer)?)?;
    }
    Ok(held)
}

fn all_receives(
    alloc: Global,
    labels: &Labels,
    bgp: &[CompiledBgp],
    peer: &CompiledPeer,
) -> Result<Sequence<bool>, NoMemory>
    ensures { IfOk result (λ all. all ≡ map (receives labels.now peer.now) bgp.now) }
{
    let mut all = Sequence::new(alloc);
    for advertisement in bgp {
        all.push(receives(labels, peer, advertisement))?;
    }
    Ok(all)
}

fn receives(labels: &Labels, peer: &CompiledPeer, advertisement: &CompiledBgp) -> bool
    ensures { result ≡ receives labels.now peer.now advertisement.now }
{
    peer.selects(labels) && is_for(peer, advertisement)
}
