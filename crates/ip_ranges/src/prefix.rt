//! Prefixes, and the addresses that they hold.
ghost use Rattle.std.specs.Prelude.{◌≡◌, ◌+◌, ◌-◌, ◌≤◌, ◌^◌};
ghost use Rattle.ip_ranges.specs.Values.{IsOfFamily, IsPrefix, IsRange, masked, span_of, width_of};

use crate::{Address, Family, Span};
use mlb_base::{NoMemory, Sequence, TryCopy};
use std::marker::Model;

/// All addresses that have the first `length` bits of `number`, whose other bits are 0.
#[derive(Clone, Copy, Debug, PartialEq, Eq)]
pub struct Prefix {
    pub family: Family,
    pub number: u128,
    /// At most 32 or 128.
    pub length: u8,
}

impl Model for Prefix {
    ghost use Rattle.std.specs.Prelude.{◌≡◌, ◌<◌, ◌≤◌, ◌%◌, ◌^◌};
    ghost use Rattle.ip_ranges.specs.Values.{PrefixValue, width_of, size_at};

    ghost Value = { PrefixValue };

    ghost view = { λ p. record { family = p.family; number = p.number; length = p.length } };

    ghost invariant = { λ p. (p.length ≤ width_of p.family)
        × (p.number < 2 ^ width_of p.family) × (p.number % size_at p.family p.length ≡ 0) };

    ghost inverse = { λ v. record { family = v.family; number = v.number; length = v.length } };
}

/// A list of prefixes.
pub type PrefixList = Sequence<Prefix>;

impl TryCopy for Prefix {
    fn copy(&self) -> Result<Prefix, NoMemory> {
        Ok(*self)
    }
}

/// The address without its bits past the length.
pub fn mask(address: &Address, length: u8) -> Prefix
    requires { length ≤ width_of address.now.family }
    ensures masked { result ≡ masked address.now length }
    ensures prefix { IsPrefix result }
    ensures in_family { IsOfFamily address.now }
{
    let host = low_ones(address.family.width() - length);
    Prefix {
        family: address.family,
        number: address.number - (address.number & host),
        length,
    }
}

/// The number whose lowest bits, so many, are the ones.
pub(crate) fn low_ones(bits: u8) -> u128
    requires { bits ≤ 128 }
    ensures { result ≡ 2 ^ bits - 1 }
{
    if bits == 0 {
        0
    } else {
        u128::MAX >> (128 - bits)
    }
}

impl Prefix {
    /// The addresses of the prefix.
    pub fn span(&self) -> Span
        ensures addresses { result ≡ span_of self.now }
        ensures range { IsRange result }
        ensures in_family { IsPrefix self.now }
    {
        Span {
            family: self.family,
            low: self.number,
            high: self.number + low_ones(self.family.width() - self.length),
        }
    }
}
