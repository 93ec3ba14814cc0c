//! Ranges of addresses.
ghost use Rattle.std.specs.Prelude.{◌≡◌, ◌↔◌, IsTrue};
ghost use Rattle.ip_ranges.specs.Values.{AddressValue, IsRange, IsOfFamily, Holds, holds, overlaps};
ghost use Rattle.ip_ranges.specs.Values.{meets_mapped, only};

use crate::{Address, Family};
use mlb_base::{NoMemory, Sequence, TryCopy};
use std::marker::Model;

// The first and the last address of `::ffff:0:0/96`.
const FIRST_MAPPED: u128 = 0xffff_0000_0000;

const LAST_MAPPED: u128 = 0xffff_ffff_ffff;

/// All addresses of a family from the low one to the high one, both included.
#[derive(Clone, Copy, Debug, PartialEq, Eq)]
pub struct Span {
    pub family: Family,
    pub low: u128,
    pub high: u128,
}

impl Model for Span {
    ghost use Rattle.std.specs.Prelude.{◌<◌, ◌≤◌, ◌^◌};
    ghost use Rattle.ip_ranges.specs.Values.{SpanValue, width_of};

    ghost Value = { SpanValue };

    ghost view = { λ s. record { family = s.family; low = s.low; high = s.high } };

    ghost invariant = { λ s. (s.low ≤ s.high) × (s.high < 2 ^ width_of s.family) };

    ghost inverse = { λ v. record { family = v.family; low = v.low; high = v.high } };
}

/// A list of ranges.
pub type SpanList = Sequence<Span>;

impl TryCopy for Span {
    fn copy(&self) -> Result<Span, NoMemory> {
        Ok(*self)
    }
}

impl Span {
    /// Whether the address is one of the range's.
    pub fn contains(&self, address: &Address) -> bool
        ensures holds { IsTrue result ↔ Holds self.now address.now }
        ensures test { result ≡ holds self.now address.now }
        ensures range { IsRange self.now }
        ensures in_family { IsOfFamily address.now }
    {
        self.family == address.family && self.low <= address.number && address.number <= self.high
    }

    /// Whether some address is in both ranges.
    pub fn overlaps(&self, other: &Span) -> bool
        ensures test { result ≡ overlaps self.now other.now }
        ensures shared { IsTrue result
            ↔ ((a : AddressValue) × Holds self.now a × Holds other.now a) }
        ensures range { IsRange self.now }
        ensures other_range { IsRange other.now }
    {
        self.family == other.family && self.low <= other.high && other.low <= self.high
    }

    /// The range of one address.
    pub(crate) fn only(address: &Address) -> Span
        ensures { result ≡ only address.now }
    {
        Span {
            family: address.family,
            low: address.number,
            high: address.number,
        }
    }

    /// Whether the range has an IPv4-mapped address, of `::ffff:0:0/96` (RFC 4291, section
    /// 2.5.5.2).
    pub(crate) fn meets_mapped(&self) -> bool
        ensures { result ≡ meets_mapped self.now }
    {
        self.family == Family::V6 && self.low <= LAST_MAPPED && FIRST_MAPPED <= self.high
    }
}
