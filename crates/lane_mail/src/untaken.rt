//! What a sender knows of the items of its lane that lie untaken.

use mlb_base::NoMemory;
use std::alloc::Global;
use std::collections::VecDeque;

// Of so many items untaken the sender waits.
const ITEM_LIMIT: usize = 65_536;

// Of so many octets of their lines too.
const OCTET_LIMIT: usize = 67_108_864;

/// How many octets the line of each untaken item has, in their order, and all of them together.
#[derive(Drop)]
pub(crate) struct Untaken {
    lengths: VecDeque<usize>,
    octets: usize,
}

impl Untaken {
    /// None lie untaken. This takes no memory.
    pub(crate) fn new(alloc: Global) -> Untaken {
        Untaken {
            lengths: VecDeque::new(alloc),
            octets: 0,
        }
    }

    /// One more, whose line has so many octets.
    pub(crate) fn add(&mut self, octets: usize) -> Result<(), NoMemory> {
        self.lengths.push_back(octets)?;
        self.octets = self.octets.saturating_add(octets);
        Ok(())
    }

    /// The last one wasn't sent.
    pub(crate) fn forget_last(&mut self) {
        if let Some(octets) = self.lengths.pop_back() {
            self.octets = self.octets.saturating_sub(octets);
        }
    }

    /// Of so many it isn't known that they were taken, and of those before them it is.
    pub(crate) fn keep(&mut self, count: u64) {
        for _ in count..self.lengths.len() as u64 {
            if let Some(octets) = self.lengths.pop_front() {
                self.octets = self.octets.saturating_sub(octets);
            }
        }
    }

    /// Whether the sender waits. Where one item alone lies untaken, it does so for a line longer
    /// than any.
    pub(crate) fn is_full(&self) -> bool {
        self.lengths.len() >= ITEM_LIMIT || self.octets >= OCTET_LIMIT
    }

    /// A share of them, by which a sender that waits is woken: one in 64, and one at least.
    pub(crate) fn share(&self) -> u64 {
        (self.lengths.len() as u64 / 64).max(1)
    }
}
