//! Addresses.
ghost use Rattle.std.specs.Prelude.{◌≡◌};
ghost use Rattle.ip_ranges.specs.Values.{IsOfFamily, is_buggy};

use crate::Family;
use mlb_base::{NoMemory, Sequence, TryCopy};
use std::marker::Model;

/// An address: a number below 2^32 or 2^128.
#[derive(Clone, Copy, Debug, PartialEq, Eq, PartialOrd, Ord)]
pub struct Address {
    pub family: Family,
    pub number: u128,
}

impl Model for Address {
    ghost use Rattle.std.specs.Prelude.{◌<◌, ◌^◌};
    ghost use Rattle.ip_ranges.specs.Values.{AddressValue, width_of};

    ghost Value = { AddressValue };

    ghost view = { λ a. record { family = a.family; number = a.number } };

    ghost invariant = { λ a. a.number < 2 ^ width_of a.family };

    ghost inverse = { λ v. record { family = v.family; number = v.number } };
}

/// A list of addresses.
pub type AddressList = Sequence<Address>;

impl TryCopy for Address {
    fn copy(&self) -> Result<Address, NoMemory> {
        Ok(*self)
    }
}

/// Whether the address is one that some devices wrongly take for a network's own or for its
/// broadcast address: IPv4, with the last octet 0 or 255.
pub fn is_buggy(address: &Address) -> bool
    ensures value { result ≡ is_buggy address.now }
    ensures in_family { IsOfFamily address.now }
{
    address.family == Family::V4 && (address.number % 256 == 0 || address.number % 256 == 255)
}
