//! A list whose items have numbers that stay.
ghost use Rattle.std.specs.Prelude.{◌≡◌, ◌==◌, ◌+◌, ◌<◌, ◌≤◌, ◌^◌, ◌∷◌, ◌++◌, [], not, nat_lt};
ghost use Rattle.std.specs.Prelude.{filter, All, IfSome, OnOk};
ghost use Rattle.std.specs.Option.{option_copied, option_map};
ghost use Rattle.std.specs.Ordering.{nat_cmp};
ghost use Rattle.std.specs.List.{find};
ghost use Rattle.std.specs.List.Sorted.{IsStrictlySortedBy};
ghost use Rattle.std.specs.Map.{lookup, keys_of};

use mlb_base::NoMemory;
use std::alloc::Global;
use std::collections::BTreeMap;
use std::marker::Model;

/// A list whose items have ascending numbers, which contracts see as those numbers with their items
/// and the room for more.
///
/// An item keeps its number when others are removed, and no number is given twice. So an item is
/// found, put at the end and removed anywhere in the logarithm of the number of items.
pub struct NumberedList<X> {
    slots: BTreeMap<u64, Option<X>>,
    next: u64,
}

impl<X: Drop> Drop for NumberedList<X> {
    fn drop(self) {
        let NumberedList { slots: _, next: _ } = self;
    }
}

impl<X> Model for NumberedList<X> {
    ghost use Rattle.numbered_items.specs.Numbered.{NumberedValue, items_of, room_of, AreSlots};

    ghost Value = { NumberedValue X };

    ghost view = { λ l. record { items = items_of l.slots.entries; room = room_of l.next l.slots.entries; next = l.next } };

    ghost invariant = { λ l. AreSlots l.next l.slots.entries };
}

impl<X> NumberedList<X> {
    /// The empty list, which takes no memory.
    pub fn new(alloc: Global) -> NumberedList<X>
        ensures { result.items ≡ [] }
    {
        NumberedList {
            slots: BTreeMap::new(alloc),
            next: 0,
        }
    }

    /// The item of that number.
    pub fn get(&self, number: u64) -> Option<&X>
        ensures item { option_copied result ≡ lookup (λ n. n == number) self.now.items }
        ensures ascending { IsStrictlySortedBy nat_cmp (keys_of self.now.items) }
    {
        self.slots.get(&number)?.as_ref()
    }

    /// The first item whose number is this one or a greater one, with its number, which is below
    /// 2^64 - 1.
    pub fn first_from(&self, number: u64) -> Option<(u64, &X)>
        ensures item { option_map (λ p. (p.0, p.1.now)) result
            ≡ find (λ p. not (nat_lt p.0 number)) self.now.items }
        ensures within { IfSome result (λ p. p.0 + 1 < 2 ^ 64) }
        ensures ascending { IsStrictlySortedBy nat_cmp (keys_of self.now.items) }
    {
        let (found, slot) = self.slots.range(number..).next()?;
        // An empty slot is the last one.
        let item = slot.as_ref()?;
        Some((*found, item))
    }
}

impl<X: Drop> NumberedList<X> {
    /// Makes room for one item, unless there is some. Where there is no memory, or once 2^64 - 1
    /// numbers have been given, it answers NoMemory, and all items stay.
    pub fn reserve(&mut self) -> Result<(), NoMemory>
        ensures items { self.new.items ≡ self.old.items }
        ensures room { OnOk result (0 < self.new.room) }
        ensures next { self.new.next ≡ self.old.next }
        ensures kept { self.old.room ≤ self.new.room }
    {
        if self.next == u64::MAX {
            return Err(NoMemory);
        }
        drop(self.slots.insert(self.next, None)?);
        Ok(())
    }

    /// Puts the item at the end, and gives its number, which is greater than each that was given
    /// before. There is room for it, so it takes no memory.
    pub fn push(&mut self, item: X) -> u64
        requires { 0 < self.old.room }
        ensures items { self.new.items ≡ self.old.items ++ (result, item) ∷ [] }
        ensures fresh { All (λ p. p.0 < result) self.old.items }
        ensures number { result ≡ self.old.next }
        ensures next { self.new.next ≡ self.old.next + 1 }
    {
        let number = self.next;
        *self.slots.get_mut(&number).unwrap() = Some(item);
        self.next += 1;
        number
    }

    /// Takes the item of that number out. It takes no memory.
    pub fn remove(&mut self, number: u64) -> Option<X>
        ensures item { result ≡ lookup (λ n. n == number) self.old.items }
        ensures items { self.new.items ≡ filter (λ p. not (p.0 == number)) self.old.items }
        ensures ascending { IsStrictlySortedBy nat_cmp (keys_of self.old.items) }
        ensures room { self.new.room ≡ self.old.room }
        ensures next { self.new.next ≡ self.old.next }
    {
        // The slot for the next number stays.
        if number >= self.next {
            return None;
        }
        self.slots.remove(&number).flatten()
    }
}
