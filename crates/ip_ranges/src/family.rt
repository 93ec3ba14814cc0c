//! The two families of addresses.
ghost use Rattle.std.specs.Prelude.{◌≡◌};

use mlb_base::{NoMemory, TryCopy};

/// IPv4 or IPv6.
#[derive(Clone, Copy, Debug, PartialEq, Eq, PartialOrd, Ord)]
pub enum Family {
    V4,
    V6,
}

impl Family {
    ghost use Rattle.ip_ranges.specs.Values.{width_of};

    /// How many bits an address of the family has.
    pub fn width(self) -> u8
        ensures { result ≡ width_of self }
    {
        match self {
            Family::V4 => 32,
            Family::V6 => 128,
        }
    }
}

impl TryCopy for Family {
    fn copy(&self) -> Result<Family, NoMemory> {
        Ok(*self)
    }
}
