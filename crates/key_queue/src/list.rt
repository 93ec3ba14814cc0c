//! A list of distinct keys.
ghost use Rattle.std.specs.Prelude.{◌≡◌, [], not, filter, OnOk, OnErr};
ghost use Rattle.std.specs.List.{list_any};
ghost use Rattle.key_queue.specs.Queue.{queued};

use crate::queue::KeyTest;
use mlb_base::NoMemory;
use std::alloc::Global;
use std::collections::BTreeMap;
use std::marker::Model;

/// A list of distinct keys, which contracts see in the order in which they came. A key is found,
/// put at the end and taken out anywhere in the logarithm of their number, in comparisons of keys.
pub struct KeyList<K: Ord> {
    /// The number of each key. One that came later has a greater one.
    numbers: BTreeMap<K, u64>,
    /// The number of the next key.
    next: u64,
}

impl<K: Ord + Drop> Drop for KeyList<K> {
    fn drop(self) {
        let KeyList {
            numbers: _,
            next: _,
        } = self;
    }
}

impl<K: Ord> Model for KeyList<K> {
    ghost use Rattle.std.specs.Prelude.{◌<◌, List};
    ghost use Rattle.std.specs.List.{AllByRecursion};
    ghost use Rattle.std.specs.List.Sorted.{IsStrictlySortedBy};
    ghost use Rattle.std.specs.Map.{keys_of};
    ghost use Rattle.key_queue.specs.Turn.{in_turn};

    ghost Value = { List K };

    ghost view = { λ l. in_turn l.numbers.entries };

    ghost invariant = { λ l. IsStrictlySortedBy K.cmp (keys_of l.numbers.entries) × AllByRecursion (λ e. e.1 < l.next) l.numbers.entries };
}

impl<K: Ord> KeyList<K> {
    /// The empty list, which takes no memory.
    pub fn new(alloc: Global) -> KeyList<K>
        ensures { result ≡ [] }
    {
        KeyList {
            numbers: BTreeMap::new(alloc),
            next: 0,
        }
    }

    /// Whether the key stands in the list.
    pub fn contains(&self, key: &K) -> bool
        ensures { result ≡ list_any (K.eq key.now) self.now }
    {
        self.numbers.contains_key(key)
    }
}

impl<K: Ord + Drop> KeyList<K> {
    /// The key to the end of the list, where it isn't in it yet. Where memory ran out, or once 2^64
    /// - 1 keys have come, the list is unchanged.
    pub fn push(&mut self, key: K) -> Result<(), NoMemory>
        ensures ok { OnOk result (self.new ≡ queued K.eq self.old key) }
        ensures err { OnErr result (self.new ≡ self.old) }
    {
        if self.contains(&key) {
            return Ok(());
        }
        if self.next == u64::MAX {
            return Err(NoMemory);
        }
        self.numbers.insert(key, self.next)?;
        self.next += 1;
        Ok(())
    }

    /// Drops the key that is equal to this one, where there is one. It takes no memory.
    pub fn remove(&mut self, key: &K)
        ensures { self.new ≡ filter (λ k. not (K.eq key.now k)) self.old }
    {
        let _number = self.numbers.remove(key);
    }

    /// Keeps the keys that pass. It takes no memory, and goes through all keys.
    pub fn retain<T: KeyTest<K>>(&mut self, test: &T)
        ensures { self.new ≡ filter (T.passes test.now) self.old }
    {
        self.numbers.retain(|key, _number| test.passes(key));
    }
}
