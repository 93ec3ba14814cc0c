//! The numbers of items, listed under each term that the items have.
ghost use Rattle.std.specs.Prelude.{◌≡◌, ◌==◌, ◌<◌, ◌≤◌, ◌+◌, ◌∷◌, ◌++◌, [], if◌then◌else◌, false};
ghost use Rattle.std.specs.Prelude.{not, filter, OnOk};
ghost use Rattle.std.specs.BTreeMap.{is_at};
ghost use Rattle.numbered_items.specs.Index.{numbers_under, room_under};

use crate::term_numbers::TermNumbers;
use mlb_base::NoMemory;
use std::alloc::Global;
use std::collections::BTreeMap;
use std::marker::Model;

/// An inverted index: under each term the numbers of the items that have it, in the order in which
/// they were added. Terms that are equal have one list. Contracts see the terms with their lists,
/// and say by `numbers_under` and `room_under` what a call does. A look-up takes the logarithm of
/// the number of terms in comparisons.
pub struct InvertedIndex<T: Ord> {
    alloc: Global,
    lists: BTreeMap<T, TermNumbers>,
}

impl<T: Ord + Drop> Drop for InvertedIndex<T> {
    fn drop(self) {
        let InvertedIndex { alloc: _, lists: _ } = self;
    }
}

impl<T: Ord> Model for InvertedIndex<T> {
    ghost use Rattle.numbered_items.specs.Index.{IndexValue};

    ghost Value = { IndexValue T };

    ghost view = { λ i. i.lists.entries };
}

impl<T: Ord> InvertedIndex<T> {
    /// The index with no numbers, which takes no memory.
    pub fn new(alloc: Global) -> InvertedIndex<T>
        ensures { numbers_under T.cmp result ≡ (λ t. []) }
    {
        InvertedIndex {
            alloc,
            lists: BTreeMap::new(alloc),
        }
    }

    /// The numbers listed under the term, in the logarithm of the number of terms.
    pub fn numbers(&self, term: &T) -> &[u64]
        ensures { result.now ≡ numbers_under T.cmp self.now term.now }
    {
        match self.lists.get(term) {
            Some(list) => list.as_slice(),
            None => &[],
        }
    }

    /// Adds the number at the end of the term's list, in the logarithm of the number of terms.
    /// There is room for it, so it takes no memory.
    pub fn add(&mut self, term: &T, number: u64)
        requires { 0 < room_under T.cmp self.old term.now }
        ensures numbers { numbers_under T.cmp self.new
            ≡ (λ t. if is_at (T.cmp term.now) t then numbers_under T.cmp self.old t ++ number ∷ []
            else numbers_under T.cmp self.old t) }
        ensures room { (t : T) → room_under T.cmp self.old t
            ≤ room_under T.cmp self.new t + (if is_at (T.cmp term.now) t then 1 else 0) }
    {
        let Some(list) = self.lists.get_mut(term) else {
            return;
        };
        list.push(number);
    }
}

impl<T: Ord + Drop> InvertedIndex<T> {
    /// Makes room for so many numbers more under the term. Where there is no memory all numbers
    /// stay. The term is dropped where an equal one is listed.
    pub fn reserve(&mut self, term: T, more: usize) -> Result<(), NoMemory>
        ensures numbers { numbers_under T.cmp self.new ≡ numbers_under T.cmp self.old }
        ensures room { OnOk result (more ≤ room_under T.cmp self.new term) }
        ensures kept { (t : T) → room_under T.cmp self.old t ≤ room_under T.cmp self.new t }
    {
        if let Some(list) = self.lists.get_mut(&term) {
            return list.reserve(more);
        }
        let list = TermNumbers::with_room(self.alloc, more)?;
        drop(self.lists.insert(term, list)?);
        Ok(())
    }

    /// Takes the number out of the term's list, wherever it stands in it. A list that is empty then
    /// is dropped, with its room. It takes no memory. Where each number of the list was greater
    /// than the one before it, the number is found in the logarithm of the list's length, and those
    /// on the shorter side of it move; else the list is gone through.
    pub fn remove(&mut self, term: &T, number: u64)
        ensures numbers { numbers_under T.cmp self.new
            ≡ (λ t. if is_at (T.cmp term.now) t
            then filter (λ n. not (n == number)) (numbers_under T.cmp self.old t)
            else numbers_under T.cmp self.old t) }
        ensures room { (t : T) → is_at (T.cmp term.now) t ≡ false
            → room_under T.cmp self.new t ≡ room_under T.cmp self.old t }
    {
        let Some(list) = self.lists.get_mut(term) else {
            return;
        };
        list.remove(number);
        if list.as_slice().is_empty() {
            self.drop_empty(term);
        }
    }

    /// Drops the term's list, which is empty.
    fn drop_empty(&mut self, term: &T)
        requires { numbers_under T.cmp self.old term.now ≡ [] }
        ensures numbers { numbers_under T.cmp self.new ≡ numbers_under T.cmp self.old }
        ensures room { (t : T) → is_at (T.cmp term.now) t ≡ false
            → room_under T.cmp self.new t ≡ room_under T.cmp self.old t }
    {
        let _empty = self.lists.remove(term);
    }
}
