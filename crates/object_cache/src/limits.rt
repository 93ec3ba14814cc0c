//! How much is held at most.
ghost use Rattle.std.specs.Prelude.{◌≡◌};
ghost use Rattle.object_cache.specs.Limits.{passes};

use versioned_map::VersionedMap;

/// The most services that are held.
pub const MOST_SERVICES: u64 = 262_144;

/// The most nodes that are held.
pub const MOST_NODES: u64 = 1_024;

/// Whether an object of this key and version would be held beside as many as may be held.
pub(crate) fn passes<K: Ord, T>(held: &VersionedMap<K, T>, most: u64, version: u64, key: &K) -> bool
    ensures { result ≡ passes K.cmp most held.now key.now version }
{
    version > 0 && held.len() as u64 >= most && held.get(key).is_none()
}
