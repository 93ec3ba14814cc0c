//! Beginnings of the list.
ghost use Rattle.std.specs.Prelude.{◌≡◌, ◌<◌, length, MatchBool};
ghost use mathlib.Core.List.{IsPrefix};

use crate::rule::{Counts, Naming};
use logbook::Seen;
use std::marker::{Model, PhantomData};

/// A beginning of the list, which contracts see as its entries. It is a number when it runs, and
/// may go to any thread.
#[derive(Drop)]
pub struct Beginning<E, J: Naming> {
    pub(crate) count: u64,
    pub(crate) seen: Seen<E, u64, Counts>,
    pub(crate) of: PhantomData<J>,
}

impl<E, J: Naming> Model for Beginning<E, J> {
    ghost use Rattle.std.specs.Prelude.{◌≡◌, List, length};

    ghost Value = { List E };

    ghost view = { λ b. b.seen.log };

    ghost invariant = { λ b. (b.count ≡ length b.seen.log) × (b.seen.book ≡ J.book) };
}

impl<E, J: Naming> Beginning<E, J> {
    /// How many entries it has.
    pub fn len(&self) -> u64
        ensures { result ≡ length self.now }
    {
        self.count
    }

    /// The same beginning. It takes no memory.
    pub fn again(&self) -> Beginning<E, J>
        ensures { result ≡ self.now }
    {
        Beginning {
            count: self.count,
            seen: self.seen.again(),
            of: PhantomData,
        }
    }

    /// Whether it begins the other. If it doesn't, the other begins it, and is shorter.
    pub fn begins(&self, other: &Beginning<E, J>) -> bool
        ensures { MatchBool result (IsPrefix self.now other.now)
            (IsPrefix other.now self.now × (length other.now < length self.now)) }
    {
        let mut both = self.seen.again();
        both.learn(&other.seen);
        self.count <= other.count
    }
}
