//! A queue of distinct keys.
ghost use Rattle.std.specs.Prelude.{◌≡◌, ◌==◌, ◌∷◌, ◌++◌, [], not, filter, take, drop, length};
ghost use Rattle.std.specs.Prelude.{slice_get, OnOk, OnErr};
ghost use Rattle.std.specs.List.{list_any};
ghost use Rattle.std.specs.Option.{option_copied};
ghost use Rattle.key_queue.specs.Queue.{in_order, queued, queued_all, AreDistinct};

use indexmap::IndexSet;
use mlb_base::NoMemory;
use std::alloc::Global;
use std::hash::Hash;
use std::marker::Model;
use std::mem;

/// A test of keys.
pub trait KeyTest<K> {
    ghost use Rattle.std.specs.Prelude.{◌≡◌, Bool};

    ghost passes: { Self → K → Bool };

    fn passes(&self, key: &K) -> bool
        ensures { result ≡ passes self.now key.now };
}

/// A queue of distinct keys, which contracts see as the list of its keys, the front first.
///
/// Keys are found by their hashes. Their seed is fixed, so whoever chooses keys can choose such
/// that collide, and a key is then looked for among all of these. To take the first key of a hash
/// set moves all after it, so the keys at the front are kept in reverse, in a set whose last key
/// leaves. Where none is left there, the keys after are turned over, each once on its way through.
pub struct KeyQueue<K: Eq + Hash> {
    /// The keys at the front, the first one last.
    front: IndexSet<K>,
    /// Those after them, in their order.
    back: IndexSet<K>,
}

impl<K: Eq + Hash + Drop> Drop for KeyQueue<K> {
    fn drop(self) {
        let KeyQueue { front: _, back: _ } = self;
    }
}

impl<K: Eq + Hash> Model for KeyQueue<K> {
    ghost use Rattle.std.specs.Prelude.{List};
    ghost use Rattle.key_queue.specs.Queue.{in_order, AreDistinct};

    ghost Value = { List K };

    ghost view = { λ q. in_order q.front.keys q.back.keys };

    ghost invariant = { λ q. AreDistinct K.eq (in_order q.front.keys q.back.keys) };
}

impl<K: Eq + Hash> KeyQueue<K> {
    /// The empty queue, which takes no memory.
    pub fn new(alloc: Global) -> KeyQueue<K>
        ensures { result ≡ [] }
    {
        KeyQueue {
            front: IndexSet::new(alloc),
            back: IndexSet::new(alloc),
        }
    }

    /// How many keys there are.
    pub fn len(&self) -> usize
        ensures { result ≡ length self.now }
    {
        self.front.len() + self.back.len()
    }

    /// Whether there is no key.
    pub fn is_empty(&self) -> bool
        ensures { result ≡ (length self.now == 0) }
    {
        self.len() == 0
    }

    /// Whether the key stands in the queue.
    #[tactic(auto, using(crate::proofs::QueueLaws::any_in_order))]
    pub fn contains(&self, key: &K) -> bool
        ensures found { result ≡ list_any (K.eq key.now) self.now }
        ensures distinct { AreDistinct K.eq self.now }
    {
        self.front.contains(key) || self.back.contains(key)
    }

    /// The key at the front.
    pub fn first(&self) -> Option<&K>
        ensures { option_copied result ≡ slice_get self.now 0 }
    {
        match self.front.last() {
            Some(key) => Some(key),
            None => self.back.first(),
        }
    }
}

impl<K: Eq + Hash + Drop> KeyQueue<K> {
    /// The keys to the back of the queue, in their order, each that isn't in the queue yet. Where
    /// memory ran out the queue is unchanged.
    pub fn append(&mut self, keys: Vec<K>) -> Result<(), NoMemory>
        ensures ok { OnOk result (self.new ≡ queued_all K.eq self.old keys.items) }
        ensures err { OnErr result (self.new ≡ self.old) }
    {
        let len = self.len();
        for key in keys {
            match self.push(key) {
                Ok(()) => {}
                Err(NoMemory) => {
                    self.truncate(len);
                    return Err(NoMemory);
                }
            }
        }
        Ok(())
    }

    /// The key to the back of the queue, where it isn't in the queue yet. Where memory ran out the
    /// queue is unchanged.
    #[tactic(auto, using(crate::proofs::QueueLaws::queued_behind, crate::proofs::QueueLaws::queued_in_front))]
    pub fn push(&mut self, key: K) -> Result<(), NoMemory>
        ensures ok { OnOk result (self.new ≡ queued K.eq self.old key) }
        ensures err { OnErr result (self.new ≡ self.old) }
    {
        if !self.front.contains(&key) {
            self.back.insert(key)?;
        }
        Ok(())
    }

    /// Takes the key at the front out. It takes no memory. Where no key is left at the front, those
    /// after are turned over first, in the time that it takes to go through them.
    #[tactic(auto, using(crate::proofs::QueueLaws::distinct_rest))]
    pub fn pop_first(&mut self) -> Option<K>
        ensures key { result ≡ slice_get self.old 0 }
        ensures rest { self.new ≡ drop 1 self.old }
    {
        turn_over(&mut self.front, &mut self.back);
        self.front.pop()
    }

    /// Keeps so many keys at the front, and drops the others. It takes no memory. It goes through
    /// the keys at the front only where some of them are dropped.
    #[tactic(auto, using(crate::proofs::QueueLaws::cut_behind))]
    pub fn truncate(&mut self, len: usize)
        ensures { self.new ≡ take len self.old }
    {
        let in_front = self.front.len();
        if len < in_front {
            self.back.clear();
            self.front.reverse();
            self.front.truncate(len);
            self.front.reverse();
        } else {
            self.back.truncate(len - in_front);
        }
    }

    /// Drops the key that is equal to this one, where there is one. It takes no memory, and moves
    /// the keys that stand after it in its set.
    #[tactic(auto, using(crate::proofs::QueueLaws::removed_in_order, crate::proofs::QueueLaws::distinct_filter))]
    pub fn remove(&mut self, key: &K)
        ensures { self.new ≡ filter (λ k. not (K.eq key.now k)) self.old }
    {
        let _at_the_front = self.front.shift_remove(key);
        let _behind = self.back.shift_remove(key);
    }

    /// Keeps the keys that pass. It takes no memory, and goes through all keys.
    pub fn retain<T: KeyTest<K>>(&mut self, test: &T)
        ensures { self.new ≡ filter (T.passes test.now) self.old }
    {
        self.front.retain(|key| test.passes(key));
        self.back.retain(|key| test.passes(key));
    }

    /// Drops all keys.
    pub fn clear(&mut self)
        ensures { self.new ≡ [] }
    {
        self.front.clear();
        self.back.clear();
    }
}

/// Where no key is left at the front, all those after become the front. Their order is the same
/// after it.
fn turn_over<K: Eq + Hash>(front: &mut IndexSet<K>, back: &mut IndexSet<K>)
    ensures order { in_order front.new.keys back.new.keys ≡ in_order front.old.keys back.old.keys }
    ensures ready { front.new.keys ≡ [] → back.new.keys ≡ [] }
{
    if front.is_empty() {
        mem::swap(front, back);
        front.reverse();
    }
}
