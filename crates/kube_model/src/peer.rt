//! BGP peers.

use crate::copies::copied;
use crate::selector::SelectorTexts;
use kube_labels::Text;
use mlb_base::{NoMemory, TryCopy};

/// A MetalLB BGPPeer. The numbers of autonomous systems are from 1.
pub struct BgpPeer {
    pub name: Text,
    /// `spec.myASN`.
    pub my_asn: u32,
    /// `spec.peerASN`.
    pub peer_asn: u32,
    /// `spec.nodeSelectors`.
    pub node_selectors: SelectorTexts,
}

impl Drop for BgpPeer {
    fn drop(self) {
        let BgpPeer {
            name: _,
            my_asn: _,
            peer_asn: _,
            node_selectors: _,
        } = self;
    }
}

impl TryCopy for BgpPeer {
    fn copy(&self) -> Result<BgpPeer, NoMemory> {
        let (name, node_selectors) = copied(&self.name, &self.node_selectors)?;
        Ok(BgpPeer {
            name,
            my_asn: self.my_asn,
            peer_asn: self.peer_asn,
            node_selectors,
        })
    }
}
