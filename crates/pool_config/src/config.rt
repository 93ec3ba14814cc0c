//! A configuration that can be in force.
use crate::compiled::{BgpList, CompiledPool, L2List, PeerList, PoolList};
use crate::span_index::SpanIndex;
use ip_ranges::Address;
use std::alloc::Global;
use std::marker::Model;

/// A configuration that can be in force. The names in each list ascend by their bytes, so that no
/// two are the same, no two spans overlap, of one pool or of two, and the advertisements have at
/// most 512 communities and at most 128 large ones, each counted once.
pub struct Config {
    pub pools: PoolList,
    pub l2: L2List,
    pub bgp: BgpList,
    pub peers: PeerList,
    pub(crate) index: SpanIndex,
}

impl Drop for Config {
    fn drop(self) {
        let Config {
            pools: _,
            l2: _,
            bgp: _,
            peers: _,
            index: _,
        } = self;
    }
}

impl Model for Config {
    ghost use Rattle.pool_config.specs.ConfigValue.{ConfigValue, IsConfig};
    ghost use Rattle.pool_config.specs.SpanIndex.{IsIndexOf};

    ghost Value = { ConfigValue };

    ghost view = { λ c. record { pools = c.pools; l2 = c.l2; bgp = c.bgp; peers = c.peers } };

    ghost invariant = { λ c. IsConfig (record { pools = c.pools; l2 = c.l2; bgp = c.bgp; peers = c.peers }) × IsIndexOf c.pools c.index };
}

impl Config {
    ghost use Rattle.std.specs.Prelude.{◌≡◌, ℕ, IfSome, IfNone, Some, []};
    ghost use Rattle.pool_config.specs.declared.compiled.CompiledPool.{CompiledPool};
    ghost use Rattle.pool_config.specs.ConfigValue.{IsConfig};
    ghost use Rattle.mlb_base.specs.Items.{ItemAt, Has, IsIn};
    ghost use Rattle.std.specs.Option.{option_copied};
    ghost use Rattle.pool_config.specs.PoolOf.{HasAddress, pool_of, pool_with};

    /// A configuration without a pool, an advertisement or a peer, which takes no memory.
    pub fn empty(alloc: Global) -> Config
        ensures { result ≡ record { pools = []; l2 = []; bgp = []; peers = [] } }
    {
        Config {
            pools: PoolList::new(alloc),
            l2: L2List::new(alloc),
            bgp: BgpList::new(alloc),
            peers: PeerList::new(alloc),
            index: SpanIndex::empty(alloc),
        }
    }

    /// Takes no time: it says what holds of every configuration.
    pub fn known(&self)
        ensures { IsConfig self.now }
    {
        let _ = &self.pools;
    }

    /// The place in `pools` of the one pool that has the address, and `None` where none has it. It
    /// takes no memory.
    pub fn pool_of(&self, address: &Address) -> Option<usize>
        ensures value { result ≡ pool_of self.now.pools address.now }
        ensures found { IfSome result (λ place. (pool : CompiledPool)
            × ItemAt self.now.pools place pool × HasAddress address.now pool) }
        ensures only { (place : ℕ) (pool : CompiledPool) → ItemAt self.now.pools place pool
            → HasAddress address.now pool → result ≡ Some place }
        ensures none { IfNone result (¬ Has (HasAddress address.now) self.now.pools) }
        ensures config { IsConfig self.now }
    {
        self.index.holder(address)
    }

    /// The one pool that has the address, and `None` where none has it. It takes no memory.
    pub fn pool_with(&self, address: &Address) -> Option<&CompiledPool>
        ensures value { option_copied result ≡ pool_with self.now.pools address.now }
        ensures found { IfSome (option_copied result) (λ pool. IsIn self.now.pools pool
            × HasAddress address.now pool) }
        ensures only { (pool : CompiledPool) → IsIn self.now.pools pool
            → HasAddress address.now pool → option_copied result ≡ Some pool }
    {
        self.holder(address)
    }

    fn holder(&self, address: &Address) -> Option<&CompiledPool>
        ensures value { option_copied result ≡ pool_with self.now.pools address.now }
        ensures config { IsConfig self.now }
    {
        match self.index.holder(address) {
            Some(place) => self.pools.as_slice().get(place),
            None => None,
        }
    }
}
