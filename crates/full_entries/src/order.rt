//! The entries of a family in the order in which they begin.
ghost use Rattle.std.specs.Prelude.{◌≡◌, Some, IsTrue};
ghost use Rattle.std.specs.List.Sorted.{IsNonDecreasing};

use crate::entries::{Entry, entry_at};
use ip_ranges::Family;
use mlb_base::NoMemory;
use std::alloc::Global;

/// Where an entry begins, and its place.
#[derive(Clone, Copy)]
struct Beginning {
    low: u128,
    place: usize,
}

/// Where the entries of a family begin, ascending, and the place of each of them.
#[derive(Drop)]
pub(crate) struct FamilyOrder {
    lows: Vec<u128>,
    places: Vec<usize>,
    ghost ascend: { IsNonDecreasing lows.items },
}

impl FamilyOrder {
    ghost use Rattle.std.specs.Prelude.{◌≡◌, ◌≤◌, ℕ, Some, IsTrue, slice_get};
    ghost use Rattle.full_entries.specs.declared.entries.Entry.{Entry};
    ghost use Rattle.full_entries.specs.Places.{begun, place_at, AreFound, IsFound};

    /// Of no entry, which takes no memory.
    pub(crate) fn empty(alloc: Global) -> FamilyOrder {
        FamilyOrder {
            lows: Vec::new(alloc),
            places: Vec::new(alloc),
        }
    }

    /// Those of the entries that are of the family.
    pub(crate) fn new(
        alloc: Global,
        entries: &[Entry],
        family: Family,
    ) -> Result<FamilyOrder, NoMemory> {
        let mut begins = Vec::new(alloc);
        for (place, entry) in entries.iter().enumerate() {
            if entry.family == family {
                begins.push(Beginning {
                    low: entry.low,
                    place,
                })?;
            }
        }
        begins.sort_unstable_by_key(|beginning| beginning.low);
        let mut lows = Vec::new(alloc);
        let mut places = Vec::new(alloc);
        for beginning in begins.as_slice() {
            lows.push(beginning.low)?;
            places.push(beginning.place)?;
        }
        // They ascend already.
        lows.sort_unstable();
        Ok(FamilyOrder { lows, places })
    }

    /// How many entries begin at the number or below it.
    fn begun(&self, number: u128) -> usize
        ensures { result ≡ begun self.now.lows.items number }
    {
        self.lows.partition_point(|low| *low <= number)
    }

    /// The place of the last entry that begins at the number or below it; in the logarithm of the
    /// number of entries.
    pub(crate) fn place_at(&self, number: u128) -> Option<usize>
        ensures { result ≡ place_at self.now number }
    {
        let last = self.begun(number).saturating_sub(1);
        self.places.as_slice().get(last).copied()
    }

    /// Whether the entry at the place is found by each of its numbers, where it is of the family.
    fn finds(&self, entries: &[Entry], family: Family, place: usize) -> bool
        ensures { IsTrue result → (e : Entry) → slice_get entries.now place ≡ Some e
            → IsFound family self.now e place }
    {
        let Some(entry) = entry_at(entries, place) else {
            return true;
        };
        entry.family != family || self.finds_entry(&entry, place)
    }

    /// Whether the entry at the place is found by each of its numbers.
    fn finds_entry(&self, entry: &Entry, place: usize) -> bool
        ensures { IsTrue result → (n : ℕ) → entry.now.low ≤ n → n ≤ entry.now.high
            → place_at self.now n ≡ Some place }
    {
        let found = self.place_at(entry.low);
        let begun = self.begun(entry.low);
        let ended = self.begun(entry.high);
        is_at(found, place) && begun == ended
    }

    /// Whether each entry of the family is found by each of its numbers.
    pub(crate) fn finds_all(&self, entries: &[Entry], family: Family) -> bool
        ensures { IsTrue result → AreFound family entries.now self.now }
    {
        for place in 0..entries.len() {
            if !self.finds(entries, family, place) {
                return false;
            }
        }
        true
    }
}

fn is_at(found: Option<usize>, place: usize) -> bool
    ensures { IsTrue result → found ≡ Some place }
{
    match found {
        Some(at) => at == place,
        None => false,
    }
}
