//! Sets of numbers in blocks, whose edges a search may skip.
ghost use Rattle.std.specs.Prelude.{◌≡◌, ◌↔◌, ◌≤◌, ◌<◌, ◌+◌, ◌==◌, ◌||◌, ◌&&◌, true, false, not};
ghost use Rattle.std.specs.Prelude.{IsTrue, IfSome, IfNone, OnOk};
ghost use Rattle.number_sets.specs.Blocks.{is_edge, is_open, IsLeft};
ghost use Rattle.number_sets.specs.Counts.{is_beyond};
ghost use Rattle.number_sets.specs.Least.{IsLeastIn, NonePasses};
ghost use Rattle.number_sets.specs.Runs.{has};

use crate::runs::NumberRuns;
use mlb_base::NoMemory;
use std::alloc::Global;
use std::marker::Model;

/// A set of numbers as `NumberRuns`, where a search may skip the edges of blocks: the first and the
/// last number of each 256.
///
/// Of a set that is made for such searches closed numbers are kept besides: its own, and the edges
/// right after them. Blocks that are full but for their edges are one run of these, so that a
/// search takes the logarithm of the number of runs.
pub struct BlockSet {
    numbers: NumberRuns,
    closed: NumberRuns,
    closes: bool,
}

impl Drop for BlockSet {
    fn drop(self) {
        let BlockSet {
            numbers: _,
            closed: _,
            closes: _,
        } = self;
    }
}

impl Model for BlockSet {
    ghost use Rattle.number_sets.specs.Blocks.{AreClosed};
    ghost use Rattle.number_sets.specs.Runs.{RunsValue};

    ghost Value = { RunsValue };

    ghost view = { λ s. s.numbers };

    ghost invariant = { λ s. AreClosed s.numbers s.closed };
}

impl BlockSet {
    /// The empty set, which takes no memory; made for searches that skip edges, or not.
    pub fn new(alloc: Global, closes: bool) -> BlockSet
        ensures { has result ≡ (λ n. false) }
    {
        BlockSet {
            numbers: NumberRuns::new(alloc),
            closed: NumberRuns::new(alloc),
            closes,
        }
    }

    /// Makes room for so many numbers more. Where there is no memory the set stays.
    pub fn reserve(&mut self, more: usize) -> Result<(), NoMemory>
        ensures has { has self.new ≡ has self.old }
        ensures room { OnOk result (more ≤ self.new.room) }
        ensures kept { self.old.room ≤ self.new.room }
    {
        if self.closes {
            // With a number two edges may be closed.
            self.closed.reserve(more.saturating_mul(3))?;
        }
        self.numbers.reserve(more)
    }

    /// Puts the number in. There is room for it, so it takes no memory.
    pub fn insert(&mut self, number: u128)
        requires { 0 < self.old.room }
        ensures has { has self.new ≡ (λ n. (n == number) || has self.old n) }
        ensures room { self.old.room ≤ self.new.room + 1 }
    {
        self.numbers.insert(number);
        if self.closes {
            close(&mut self.closed, number);
        }
    }

    /// Takes the number out. It takes no memory.
    pub fn remove(&mut self, number: u128)
        ensures has { has self.new ≡ (λ n. not (n == number) && has self.old n) }
        ensures room { self.old.room ≤ self.new.room }
    {
        self.numbers.remove(number);
        reopen(&mut self.closed, number);
    }

    /// Whether no number is in the set.
    pub fn is_empty(&self) -> bool
        ensures { IsTrue result ↔ (has self.now ≡ (λ n. false)) }
    {
        self.numbers.is_empty()
    }

    /// The least number from low to high that is in the set; in the logarithm of the number of
    /// runs.
    pub fn first_present(&self, low: u128, high: u128) -> Option<u128>
        ensures some { IfSome result (λ n. IsLeastIn (has self.now) low high n) }
        ensures none { IfNone result (NonePasses (has self.now) low high) }
    {
        self.numbers.first_present(low, high)
    }

    /// The least number from low to high that is in this set and not in the other, whose numbers
    /// are all in this one; in the product of the logarithms of the numbers of runs.
    pub fn first_beyond(&self, fewer: &BlockSet, low: u128, high: u128) -> Option<u128>
        requires { IsLeft (has self.now) fewer.now }
        ensures some { IfSome result (λ n. IsLeastIn (is_beyond self.now fewer.now) low high n) }
        ensures none { IfNone result (NonePasses (is_beyond self.now fewer.now) low high) }
    {
        self.numbers.first_beyond(&fewer.numbers, low, high)
    }

    /// The least number from low to high that isn't in the set, and no edge where it is sought
    /// inside blocks.
    pub fn first_absent(&self, inside: bool, low: u128, high: u128) -> Option<u128>
        ensures some { IfSome result (λ n. IsLeastIn (is_open inside self.now) low high n) }
        ensures none { IfNone result (NonePasses (is_open inside self.now) low high) }
    {
        let mut from = low;
        while let Some(number) = self.numbers.first_absent(from, high) {
            if !(inside && is_edge(number)) {
                return Some(number);
            }
            if number == high {
                return None;
            }
            // What is closed is in the set or an edge.
            from = self.closed.first_absent(number + 1, high)?;
        }
        None
    }
}

fn is_edge(number: u128) -> bool
    ensures { result ≡ is_edge number }
{
    number % 256 == 0 || number % 256 == 255
}

/// The number after this one, where that is an edge.
fn edge_behind(number: u128) -> Option<u128>
    ensures { IfSome result (λ n. is_edge n ≡ true) }
{
    let behind = number.checked_add(1)?;
    if is_edge(behind) { Some(behind) } else { None }
}

/// Closes the number and the edges right after it.
fn close(closed: &mut NumberRuns, number: u128)
    ensures { IsLeft (λ n. is_edge n || ((n == number) || has closed.old n)) closed.new }
{
    put(closed, number);
    let Some(edge) = edge_behind(number) else {
        return;
    };
    put(closed, edge);
    if let Some(last) = edge_behind(edge) {
        put(closed, last);
    }
}

/// Puts the number in, where there is room for it.
fn put(closed: &mut NumberRuns, number: u128)
    ensures { IsLeft (λ n. (n == number) || has closed.old n) closed.new }
{
    if closed.has_room() {
        closed.insert(number);
    }
}

/// Takes out the number, and the edges right after it.
fn reopen(closed: &mut NumberRuns, number: u128)
    ensures { IsLeft (λ n. not (n == number) && has closed.old n) closed.new }
{
    closed.remove(number);
    let Some(edge) = edge_behind(number) else {
        return;
    };
    closed.remove(edge);
    if let Some(last) = edge_behind(edge) {
        closed.remove(last);
    }
}
