//! Pools of addresses.

use crate::copies::{both, copied};
use crate::selector::SelectorTexts;
use kube_labels::{Labels, Text, TextList};
use mlb_base::{NoMemory, TryCopy};

/// A MetalLB IPAddressPool.
pub struct Pool {
    pub name: Text,
    pub labels: Labels,
    /// `spec.addresses`: prefixes and ranges of addresses.
    pub entries: TextList,
    /// `spec.autoAssign`: whether services get addresses from it that don't ask for it.
    pub auto_assign: bool,
    /// `spec.avoidBuggyIPs`: whether IPv4 addresses that end in 0 or 255 are left out.
    pub avoid_buggy: bool,
    /// `spec.serviceAllocation`.
    pub allocation: Option<Allocation>,
}

impl Drop for Pool {
    fn drop(self) {
        let Pool {
            name: _,
            labels: _,
            entries: _,
            auto_assign: _,
            avoid_buggy: _,
            allocation: _,
        } = self;
    }
}

/// Which services a pool serves, and when its turn comes.
pub struct Allocation {
    /// From 1, the least first; 0 comes last. At most 2147483647.
    pub priority: u32,
    pub namespaces: TextList,
    pub namespace_selectors: SelectorTexts,
    pub service_selectors: SelectorTexts,
}

impl Drop for Allocation {
    fn drop(self) {
        let Allocation {
            priority: _,
            namespaces: _,
            namespace_selectors: _,
            service_selectors: _,
        } = self;
    }
}

impl TryCopy for Allocation {
    fn copy(&self) -> Result<Allocation, NoMemory> {
        let selectors = copied(&self.namespace_selectors, &self.service_selectors);
        let (namespaces, selectors) = both(self.namespaces.copy(), selectors)?;
        let (namespace_selectors, service_selectors) = selectors;
        Ok(Allocation {
            priority: self.priority,
            namespaces,
            namespace_selectors,
            service_selectors,
        })
    }
}

impl TryCopy for Pool {
    fn copy(&self) -> Result<Pool, NoMemory> {
        let names = copied(&self.name, &self.labels);
        let given = copied(&self.entries, &self.allocation);
        let ((name, labels), (entries, allocation)) = both(names, given)?;
        Ok(Pool {
            name,
            labels,
            entries,
            auto_assign: self.auto_assign,
            avoid_buggy: self.avoid_buggy,
            allocation,
        })
    }
}
