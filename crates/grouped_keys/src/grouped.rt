//! Sets of keys by group.
ghost use Rattle.std.specs.Prelude.{◌≡◌, ◌&&◌, ◌||◌, not, false, IfOk, OnOk, OnErr};
ghost use Rattle.std.specs.Option.{option_copied};
ghost use Rattle.std.specs.Map.{lookup, keys_of};
ghost use Rattle.std.specs.BTreeMap.{is_at};
ghost use Rattle.std.specs.BTreeSet.{contains};
ghost use Rattle.grouped_keys.specs.Grouped.{in_group};

use mlb_base::NoMemory;
use std::alloc::Global;
use std::collections::btree_map::Keys;
use std::collections::{BTreeMap, BTreeSet};
use std::marker::Model;

/// For each group a set of keys, which contracts see as the list of the groups with their sets, by
/// ascending group, and read by `in_group`: whether a key is in the set of a group.
///
/// A call takes the logarithm of the number of groups in comparisons of groups, and that of the
/// size of the group's set in comparisons of keys.
pub struct GroupedKeys<G: Ord, K: Ord> {
    alloc: Global,
    groups: BTreeMap<G, BTreeSet<K>>,
}

impl<G: Ord + Drop, K: Ord + Drop> Drop for GroupedKeys<G, K> {
    fn drop(self) {
        let GroupedKeys {
            alloc: _,
            groups: _,
        } = self;
    }
}

impl<G: Ord, K: Ord> Model for GroupedKeys<G, K> {
    ghost use Rattle.std.specs.Prelude.{List};
    ghost use Rattle.std.specs.BTreeSet.{BTreeSet};

    ghost Value = { List (G × BTreeSet K) };

    ghost view = { λ s. s.groups.entries };
}

impl<G: Ord, K: Ord> GroupedKeys<G, K> {
    /// No group has a key. This takes no memory.
    pub fn new(alloc: Global) -> GroupedKeys<G, K>
        ensures { in_group G.cmp K.cmp result ≡ (λ group key. false) }
    {
        GroupedKeys {
            alloc,
            groups: BTreeMap::new(alloc),
        }
    }

    /// The set of the group, where it has one.
    pub fn keys(&self, group: &G) -> Option<&BTreeSet<K>>
        ensures { option_copied result ≡ lookup (is_at (G.cmp group.now)) self.now }
    {
        self.groups.get(group)
    }

    /// The groups that have sets, ascending.
    pub fn groups(&self) -> Keys<'_, G, BTreeSet<K>>
        ensures { result ≡ keys_of self.now }
    {
        self.groups.keys()
    }
}

impl<G: Ord + Drop, K: Ord + Drop> GroupedKeys<G, K> {
    /// Puts the key in the group's set. This takes memory where the set doesn't have it. Where
    /// memory ran out all is unchanged.
    pub fn insert(&mut self, group: G, key: K) -> Result<(), NoMemory>
        ensures ok { OnOk result
            (in_group G.cmp K.cmp self.new
            ≡ (λ g k. (is_at (G.cmp group) g && is_at (K.cmp key) k)
            || in_group G.cmp K.cmp self.old g k)) }
        ensures err { OnErr result (self.new ≡ self.old) }
    {
        match self.groups.get_mut(&group) {
            Some(keys) => {
                keys.insert(key)?;
            }
            None => {
                let keys = singleton(self.alloc, key)?;
                drop(self.groups.insert(group, keys)?);
            }
        }
        Ok(())
    }

    /// Takes the key out of the group's set. A set that is empty then is dropped, and its group
    /// with it. This takes no memory.
    pub fn remove(&mut self, group: &G, key: &K)
        ensures { in_group G.cmp K.cmp self.new
            ≡ (λ g k. not (is_at (G.cmp group.now) g && is_at (K.cmp key.now) k)
            && in_group G.cmp K.cmp self.old g k) }
    {
        let Some(keys) = self.groups.get_mut(group) else {
            return;
        };
        keys.remove(key);
        if keys.is_empty() {
            drop(self.groups.remove(group));
        }
    }
}

/// The set of this key alone.
fn singleton<K: Ord + Drop>(alloc: Global, key: K) -> Result<BTreeSet<K>, NoMemory>
    ensures { IfOk result (λ keys. contains K.cmp keys ≡ (λ k. is_at (K.cmp key) k)) }
{
    let mut keys = BTreeSet::new(alloc);
    keys.insert(key)?;
    Ok(keys)
}
