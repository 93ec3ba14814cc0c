//! Advertisements on the local network.

use crate::copies::{both, copied};
use crate::selector::SelectorTexts;
use kube_labels::{Text, TextList};
use mlb_base::{NoMemory, TryCopy};

/// A MetalLB L2Advertisement.
pub struct L2Adv {
    pub name: Text,
    /// `spec.ipAddressPools`.
    pub pools: TextList,
    /// `spec.ipAddressPoolSelectors`.
    pub pool_selectors: SelectorTexts,
    /// `spec.nodeSelectors`.
    pub node_selectors: SelectorTexts,
    /// `spec.interfaces`.
    pub interfaces: TextList,
}

impl Drop for L2Adv {
    fn drop(self) {
        let L2Adv {
            name: _,
            pools: _,
            pool_selectors: _,
            node_selectors: _,
            interfaces: _,
        } = self;
    }
}

impl TryCopy for L2Adv {
    fn copy(&self) -> Result<L2Adv, NoMemory> {
        let lists = copied(&self.pools, &self.interfaces);
        let selectors = copied(&self.pool_selectors, &self.node_selectors);
        let (name, (lists, selectors)) = both(self.name.copy(), both(lists, selectors))?;
        let (pools, interfaces) = lists;
        let (pool_selectors, node_selectors) = selectors;
        Ok(L2Adv {
            name,
            pools,
            pool_selectors,
            node_selectors,
            interfaces,
        })
    }
}
