//! Advertisements by BGP.

use crate::copies::{both, copied};
use crate::lengths::{LengthV4, LengthV6};
use crate::selector::SelectorTexts;
use kube_labels::{Text, TextList};
use mlb_base::{NoMemory, TryCopy};

/// A MetalLB BGPAdvertisement.
pub struct BgpAdv {
    pub name: Text,
    /// `spec.aggregationLength`.
    pub length: LengthV4,
    /// `spec.aggregationLengthV6`.
    pub length_v6: LengthV6,
    /// `spec.localPref`.
    pub local_pref: u32,
    /// `spec.communities`.
    pub communities: TextList,
    /// `spec.ipAddressPools`.
    pub pools: TextList,
    /// `spec.ipAddressPoolSelectors`.
    pub pool_selectors: SelectorTexts,
    /// `spec.nodeSelectors`.
    pub node_selectors: SelectorTexts,
    /// `spec.peers`.
    pub peers: TextList,
}

impl Drop for BgpAdv {
    fn drop(self) {
        let BgpAdv {
            name: _,
            length: _,
            length_v6: _,
            local_pref: _,
            communities: _,
            pools: _,
            pool_selectors: _,
            node_selectors: _,
            peers: _,
        } = self;
    }
}

impl TryCopy for BgpAdv {
    fn copy(&self) -> Result<BgpAdv, NoMemory> {
        let names = copied(&self.name, &self.peers);
        let lists = copied(&self.communities, &self.pools);
        let selectors = copied(&self.pool_selectors, &self.node_selectors);
        let ((name, peers), (lists, selectors)) = both(names, both(lists, selectors))?;
        let (communities, pools) = lists;
        let (pool_selectors, node_selectors) = selectors;
        Ok(BgpAdv {
            name,
            length: self.length,
            length_v6: self.length_v6,
            local_pref: self.local_pref,
            communities,
            pools,
            pool_selectors,
            node_selectors,
            peers,
        })
    }
}
