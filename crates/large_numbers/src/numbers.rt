//! Large communities, and lists of them.
ghost use Rattle.std.specs.Prelude.{◌≡◌, IfOk};
ghost use Rattle.std.specs.List.Sorted.{IsStrictlySortedBy};
ghost use Rattle.large_numbers.specs.Large.{large_cmp};

use mlb_base::{NoMemory, Sequence, TryCopy};
use std::alloc::Global;
use std::collections::BTreeSet;
use std::marker::Model;

/// A large community (RFC 8092). They ascend by the three numbers.
#[derive(Clone, Copy, Debug, PartialEq, Eq, PartialOrd, Ord)]
pub struct LargeCommunity {
    /// The Global Administrator.
    pub global: u32,
    /// The first part of the local data.
    pub first: u32,
    /// The second part of the local data.
    pub second: u32,
}

impl TryCopy for LargeCommunity {
    fn copy(&self) -> Result<LargeCommunity, NoMemory> {
        Ok(*self)
    }
}

/// Large communities, ascending, each once.
pub struct LargeNumbers {
    numbers: Sequence<LargeCommunity>,
}

impl Drop for LargeNumbers {
    fn drop(self) {
        let LargeNumbers { numbers: _ } = self;
    }
}

impl Model for LargeNumbers {
    ghost use Rattle.std.specs.Prelude.{List};
    ghost use Rattle.std.specs.List.Sorted.{IsStrictlySortedBy};
    ghost use Rattle.large_numbers.specs.Large.{large_cmp};
    ghost use Rattle.large_numbers.specs.declared.numbers.LargeCommunity.{LargeCommunity as LargeValue};

    ghost Value = { List LargeValue };

    ghost view = { λ c. c.numbers };

    ghost invariant = { λ c. IsStrictlySortedBy large_cmp c.numbers };
}

impl LargeNumbers {
    /// The large communities, ascending.
    pub fn as_slice(&self) -> &[LargeCommunity]
        ensures numbers { result.now ≡ self.now }
        ensures ascending { IsStrictlySortedBy large_cmp self.now }
    {
        self.numbers.as_slice()
    }
}

impl TryCopy for LargeNumbers {
    fn copy(&self) -> Result<LargeNumbers, NoMemory> {
        Ok(LargeNumbers {
            numbers: self.numbers.copy()?,
        })
    }
}

/// The large communities of a set.
pub fn larges_from(alloc: Global, set: &BTreeSet<LargeCommunity>) -> Result<LargeNumbers, NoMemory>
    ensures { IfOk result (λ numbers. numbers ≡ set.now.keys) }
{
    let mut numbers = Sequence::new(alloc);
    for number in set.iter() {
        numbers.push(*number)?;
    }
    Ok(LargeNumbers { numbers })
}
