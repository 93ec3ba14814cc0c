//! The objects of a configuration, with their entries, selectors and communities read.
use crate::choice::{ChoosesPools, SelectsNodes};
use crate::numbers::CommunityNumbers;
use ip_ranges::SpanList;
use kube_labels::{Labels, SelectorList, Text, TextList};
use kube_model::{LengthV4, LengthV6};
use large_numbers::LargeNumbers;
use mlb_base::Sequence;

/// An IPAddressPool (MetalLB), with its entries and selectors read.
pub struct CompiledPool {
    pub name: Text,
    pub labels: Labels,
    /// What `addresses` has, as it is listed. No two ranges of a configuration overlap.
    pub spans: SpanList,
    /// Whether a service that asks for no pool may have an address of this one.
    pub auto_assign: bool,
    /// Whether IPv4 addresses whose last octet is 0 or 255 are ignored.
    pub avoid_buggy: bool,
    /// `serviceAllocation`; without it the pool serves every service.
    pub allocation: Option<CompiledAllocation>,
}

impl Drop for CompiledPool {
    fn drop(self) {
        let CompiledPool {
            name: _,
            labels: _,
            spans: _,
            auto_assign: _,
            avoid_buggy: _,
            allocation: _,
        } = self;
    }
}

/// Which services a pool serves, and when its turn comes (MetalLB, `serviceAllocation`).
pub struct CompiledAllocation {
    /// From 1, the least first; 0 comes last.
    pub priority: u32,
    /// Names of namespaces.
    pub namespaces: TextList,
    pub namespace_selectors: SelectorList,
    pub service_selectors: SelectorList,
}

impl Drop for CompiledAllocation {
    fn drop(self) {
        let CompiledAllocation {
            priority: _,
            namespaces: _,
            namespace_selectors: _,
            service_selectors: _,
        } = self;
    }
}

/// An L2Advertisement (MetalLB), with its selectors read.
pub struct CompiledL2 {
    pub name: Text,
    /// Names of pools, which needn't be there.
    pub pools: TextList,
    pub pool_selectors: SelectorList,
    pub node_selectors: SelectorList,
    /// Names of the interfaces that answer; where none is named, all do.
    pub interfaces: TextList,
}

impl Drop for CompiledL2 {
    fn drop(self) {
        let CompiledL2 {
            name: _,
            pools: _,
            pool_selectors: _,
            node_selectors: _,
            interfaces: _,
        } = self;
    }
}

/// A BGPAdvertisement (MetalLB), with its selectors and communities read.
pub struct CompiledBgp {
    pub name: Text,
    /// How long the prefixes of IPv4 are, from 1 to 32.
    pub length: LengthV4,
    /// How long those of IPv6 are, up to 128.
    pub length_v6: LengthV6,
    /// LOCAL_PREF (RFC 4271, section 5.1.5), for peers of the same AS.
    pub local_pref: u32,
    /// COMMUNITIES (RFC 1997).
    pub communities: CommunityNumbers,
    /// LARGE_COMMUNITY (RFC 8092).
    pub large: LargeNumbers,
    /// Names of pools, which needn't be there.
    pub pools: TextList,
    pub pool_selectors: SelectorList,
    pub node_selectors: SelectorList,
    /// Names of peers; where none is named, all have it.
    pub peers: TextList,
}

impl Drop for CompiledBgp {
    fn drop(self) {
        let CompiledBgp {
            name: _,
            length: _,
            length_v6: _,
            local_pref: _,
            communities: _,
            large: _,
            pools: _,
            pool_selectors: _,
            node_selectors: _,
            peers: _,
        } = self;
    }
}

/// A BGPPeer (MetalLB), with its selectors read.
pub struct CompiledPeer {
    pub name: Text,
    /// The AS number of this side, from 1 (RFC 6793).
    pub my_asn: u32,
    /// The AS number of the peer, from 1.
    pub peer_asn: u32,
    pub node_selectors: SelectorList,
}

impl Drop for CompiledPeer {
    fn drop(self) {
        let CompiledPeer {
            name: _,
            my_asn: _,
            peer_asn: _,
            node_selectors: _,
        } = self;
    }
}

/// A list of pools.
pub type PoolList = Sequence<CompiledPool>;

/// A list of advertisements on the local network.
pub type L2List = Sequence<CompiledL2>;

/// A list of advertisements by BGP.
pub type BgpList = Sequence<CompiledBgp>;

/// A list of peers.
pub type PeerList = Sequence<CompiledPeer>;

impl ChoosesPools for CompiledL2 {
    ghost pools = { λ a. a.pools };

    ghost pool_selectors = { λ a. a.pool_selectors };

    fn pools(&self) -> &TextList {
        &self.pools
    }

    fn pool_selectors(&self) -> &SelectorList {
        &self.pool_selectors
    }
}

impl SelectsNodes for CompiledL2 {
    ghost node_selectors = { λ a. a.node_selectors };

    fn node_selectors(&self) -> &SelectorList {
        &self.node_selectors
    }
}

impl ChoosesPools for CompiledBgp {
    ghost pools = { λ a. a.pools };

    ghost pool_selectors = { λ a. a.pool_selectors };

    fn pools(&self) -> &TextList {
        &self.pools
    }

    fn pool_selectors(&self) -> &SelectorList {
        &self.pool_selectors
    }
}

impl SelectsNodes for CompiledBgp {
    ghost node_selectors = { λ a. a.node_selectors };

    fn node_selectors(&self) -> &SelectorList {
        &self.node_selectors
    }
}

impl SelectsNodes for CompiledPeer {
    ghost node_selectors = { λ a. a.node_selectors };

    fn node_selectors(&self) -> &SelectorList {
        &self.node_selectors
    }
}
