//! The objects that make a configuration.
ghost use Rattle.std.specs.Prelude.{◌≡◌, [], IfOk, IsOkAnd, OnOk, OnErr};
ghost use Rattle.kube_labels.specs.Names.{name_cmp};
ghost use Rattle.pool_config.specs.Objects.{no_objects, set_shown, set_shows, set_put, put_at};
ghost use Rattle.pool_config.specs.Objects.{set_without, set_expired, set_listed};
ghost use Rattle.versioned_map.specs.Objects.{is_newer, shown};

use kube_labels::Text;
use kube_model::{BgpAdv, BgpPeer, CommunityList, Kind, L2Adv, Object, Pool, both};
use mlb_base::{NoMemory, TryCopy};
use std::alloc::Global;
use versioned_map::{Shown, VersionedMap};

/// The objects that make a configuration (MetalLB's IPAddressPools, L2Advertisements,
/// BGPAdvertisements, BGPPeers and Communities), of each kind by name, each at the version that it
/// was last shown with.
pub struct ObjectSet {
    pub pools: VersionedMap<Text, Pool>,
    pub l2s: VersionedMap<Text, L2Adv>,
    pub bgps: VersionedMap<Text, BgpAdv>,
    pub peers: VersionedMap<Text, BgpPeer>,
    pub communities: VersionedMap<Text, CommunityList>,
}

impl Drop for ObjectSet {
    fn drop(self) {
        let ObjectSet {
            pools: _,
            l2s: _,
            bgps: _,
            peers: _,
            communities: _,
        } = self;
    }
}

impl ObjectSet {
    /// No objects, which takes no memory.
    pub fn new(alloc: Global) -> ObjectSet
        ensures { result ≡ no_objects }
    {
        ObjectSet {
            pools: VersionedMap::new(alloc),
            l2s: VersionedMap::new(alloc),
            bgps: VersionedMap::new(alloc),
            peers: VersionedMap::new(alloc),
            communities: VersionedMap::new(alloc),
        }
    }

    /// An object is shown; one that isn't newer than the held one is ignored, as is one of another
    /// kind. Whether it is held now. Where memory ran out the set is unchanged.
    pub fn show(&mut self, version: u64, object: Object) -> Result<bool, NoMemory>
        ensures is_held { IfOk result (λ is_held. is_held ≡ set_shows self.old version object) }
        ensures ok { OnOk result (self.new ≡ set_shown self.old version object) }
        ensures err { OnErr result (self.new ≡ self.old) }
    {
        match object {
            Object::Pool(pool) => show_named(&mut self.pools, pool.name.copy(), version, pool),
            Object::L2(advertisement) => show_named(
                &mut self.l2s,
                advertisement.name.copy(),
                version,
                advertisement,
            ),
            Object::Bgp(advertisement) => show_named(
                &mut self.bgps,
                advertisement.name.copy(),
                version,
                advertisement,
            ),
            Object::Peer(peer) => show_named(&mut self.peers, peer.name.copy(), version, peer),
            Object::Community(community) => show_named(
                &mut self.communities,
                community.name.copy(),
                version,
                community,
            ),
            Object::Service(_) | Object::Namespace(_) | Object::Node(_) | Object::Slice(_) => {
                drop(object);
                Ok(false)
            }
        }
    }

    /// The object is put in place of the one of its kind and name, at the version that was held;
    /// one of another kind is passed over. Where memory ran out the set is unchanged.
    pub fn set(&mut self, object: Object) -> Result<(), NoMemory>
        ensures ok { OnOk result (self.new ≡ set_put self.old object) }
        ensures err { OnErr result (self.new ≡ self.old) }
    {
        match object {
            Object::Pool(pool) => put_named(&mut self.pools, pool.name.copy(), pool),
            Object::L2(advertisement) => {
                put_named(&mut self.l2s, advertisement.name.copy(), advertisement)
            }
            Object::Bgp(advertisement) => {
                put_named(&mut self.bgps, advertisement.name.copy(), advertisement)
            }
            Object::Peer(peer) => put_named(&mut self.peers, peer.name.copy(), peer),
            Object::Community(community) => {
                put_named(&mut self.communities, community.name.copy(), community)
            }
            Object::Service(_) | Object::Namespace(_) | Object::Node(_) | Object::Slice(_) => {
                drop(object);
                Ok(())
            }
        }
    }

    /// The object of the kind and name isn't there any more; every other one stays. It takes no
    /// memory.
    pub fn remove(&mut self, kind: Kind, name: &Text)
        ensures { self.new ≡ set_without self.old kind name.now }
    {
        match kind {
            Kind::Pool => drop(self.pools.remove(name)),
            Kind::L2 => drop(self.l2s.remove(name)),
            Kind::Bgp => drop(self.bgps.remove(name)),
            Kind::Peer => drop(self.peers.remove(name)),
            Kind::Community => drop(self.communities.remove(name)),
            Kind::Service | Kind::Namespace | Kind::Node | Kind::Slice => {}
        }
    }

    /// The watch begins anew: every object is held at version 0.
    pub fn expire(&mut self)
        ensures { self.new ≡ set_expired self.old }
    {
        self.pools.expire();
        self.l2s.expire();
        self.bgps.expire();
        self.peers.expire();
        self.communities.expire();
    }

    /// The list has ended: what is held at version 0 is dropped.
    pub fn drop_unlisted(&mut self)
        ensures { self.new ≡ set_listed self.old }
    {
        self.pools.drop_unlisted();
        self.l2s.drop_unlisted();
        self.bgps.drop_unlisted();
        self.peers.drop_unlisted();
        self.communities.drop_unlisted();
    }
}

impl TryCopy for ObjectSet {
    fn copy(&self) -> Result<ObjectSet, NoMemory> {
        let advertisements = both(self.l2s.copy(), self.bgps.copy());
        let others = both(self.peers.copy(), self.communities.copy());
        let (pools, (advertisements, others)) = both(
            self.pools.copy(),
            both(advertisements, others),
        )?;
        let (l2s, bgps) = advertisements;
        let (peers, communities) = others;
        Ok(ObjectSet {
            pools,
            l2s,
            bgps,
            peers,
            communities,
        })
    }
}

/// An object is shown under the name, if there was memory for it. Whether it is held now.
fn show_named<T: Drop>(
    held: &mut VersionedMap<Text, T>,
    name: Result<Text, NoMemory>,
    version: u64,
    object: T,
) -> Result<bool, NoMemory>
    ensures is_held { IfOk result (λ is_held. IsOkAnd name
        (λ n. is_held ≡ is_newer name_cmp held.old n version)) }
    ensures ok { OnOk result (IsOkAnd name
        (λ n. held.new ≡ shown name_cmp held.old n version object)) }
    ensures err { OnErr result (held.new ≡ held.old) }
{
    match held.show(name?, version, object)? {
        Shown::Held { .. } => Ok(true),
        Shown::PassedOver { .. } => Ok(false),
    }
}

/// An object is put in place of the one of the name, if there was memory for it.
fn put_named<T: Drop>(
    held: &mut VersionedMap<Text, T>,
    name: Result<Text, NoMemory>,
    object: T,
) -> Result<(), NoMemory>
    ensures ok { OnOk result (IsOkAnd name (λ n. held.new ≡ put_at held.old n object)) }
    ensures err { OnErr result (held.new ≡ held.old) }
{
    let name = name?;
    let version = held.version_of(&name);
    held.put(name, version, object)
}
