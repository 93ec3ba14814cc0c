//! The numbers that are listed under one term.
ghost use Rattle.std.specs.Prelude.{◌≡◌, ◌==◌, ◌<◌, ◌≤◌, ◌+◌, ◌-◌, ◌∷◌, ◌++◌, [], not, filter};
ghost use Rattle.std.specs.Prelude.{length, drop, vec_len, slice_index, IfOk, IsTrue, OnOk};
ghost use Rattle.std.specs.List.{remove};

use mlb_base::NoMemory;
use std::alloc::Global;
use std::marker::Model;

/// Numbers in the order in which they were added. Contracts see them with the room for more.
#[derive(Drop)]
pub(crate) struct TermNumbers {
    numbers: Vec<u64>,
    /// How many at the front were taken out already. They keep their places until they are more
    /// than half.
    gone: usize,
    /// Whether each was greater than the one before it. Then a number is found by binary search.
    ascending: bool,
}

impl Model for TermNumbers {
    ghost use Rattle.numbered_items.specs.Index.{TermList, AreLeft, list_behind};

    ghost Value = { TermList };

    ghost view = { λ l. list_behind l.gone l.numbers };

    ghost invariant = { λ l. AreLeft l.gone l.ascending l.numbers };
}

/// Whether the number is greater than the last one, where there is one.
fn is_above_last(numbers: &[u64], number: u64) -> bool
    ensures { IsTrue result → 0 < length numbers.now
        → slice_index numbers.now (length numbers.now - 1) < number }
{
    match numbers.last() {
        Some(last) => *last < number,
        None => true,
    }
}

impl TermNumbers {
    /// No numbers, with room for so many.
    pub(crate) fn with_room(alloc: Global, room: usize) -> Result<TermNumbers, NoMemory>
        ensures numbers { IfOk result (λ list. list.numbers ≡ []) }
        ensures room { IfOk result (λ list. list.room ≡ room) }
    {
        Ok(TermNumbers {
            numbers: Vec::with_capacity(alloc, room)?,
            gone: 0,
            ascending: true,
        })
    }

    /// The numbers, in the order in which they were added.
    pub(crate) fn as_slice(&self) -> &[u64]
        ensures { result.now ≡ self.now.numbers }
    {
        &self.numbers.as_slice()[self.gone..]
    }

    /// Makes room for so many numbers more. Where there is no memory all stays.
    pub(crate) fn reserve(&mut self, more: usize) -> Result<(), NoMemory>
        ensures numbers { self.new.numbers ≡ self.old.numbers }
        ensures room { OnOk result (more ≤ self.new.room) }
        ensures kept { self.old.room ≤ self.new.room }
    {
        self.numbers.reserve(more)?;
        Ok(())
    }

    /// Adds the number at the end. There is room for it, so it takes no memory.
    pub(crate) fn push(&mut self, number: u64)
        requires { 0 < self.old.room }
        ensures numbers { self.new.numbers ≡ self.old.numbers ++ number ∷ [] }
        ensures room { self.old.room ≤ self.new.room + 1 }
    {
        self.ascending = self.ascending && is_above_last(self.as_slice(), number);
        self.numbers.push_reserved(number);
    }

    /// Takes the number out, wherever it stands. It takes no memory. Where it is found by binary
    /// search, those of the shorter side of it move.
    pub(crate) fn remove(&mut self, number: u64)
        ensures { self.new.numbers ≡ filter (λ n. not (n == number)) self.old.numbers }
    {
        if !self.ascending {
            drop_front(&mut self.numbers, self.gone);
            self.gone = 0;
            self.numbers.retain(|listed| *listed != number);
            return;
        }
        if let Ok(index) = self.as_slice().binary_search(&number) {
            self.gone = remove_behind(&mut self.numbers, self.gone, index);
        }
    }
}

/// Takes out the number at the index after those that are gone. It is answered how many are gone
/// then.
fn remove_behind(numbers: &mut Vec<u64>, gone: usize, index: usize) -> usize
    requires { gone + index < vec_len numbers.old }
    ensures numbers { drop result numbers.new.items ≡ remove (drop gone numbers.old.items) index }
    ensures within { result ≤ vec_len numbers.new }
{
    let at = gone + index;
    if numbers.len() - at <= index {
        let _removed = numbers.remove(at);
        return gone;
    }
    numbers.copy_within(gone..at, gone + 1);
    let gone = gone + 1;
    if gone <= numbers.len() / 2 {
        return gone;
    }
    drop_front(numbers, gone);
    0
}

/// Takes so many numbers away at the front.
fn drop_front(numbers: &mut Vec<u64>, count: usize)
    requires { count ≤ vec_len numbers.old }
    ensures { numbers.new.items ≡ drop count numbers.old.items }
{
    let len = numbers.len();
    numbers.copy_within(count..len, 0);
    numbers.truncate(len - count);
}
