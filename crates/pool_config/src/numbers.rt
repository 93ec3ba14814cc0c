//! The numbers of BGP communities.
ghost use Rattle.std.specs.Prelude.{◌≡◌, ◌↔◌, ℕ, [], IfOk, IfSome, IfNone, Some};
ghost use Rattle.std.specs.List.{before_first, after_first};
ghost use Rattle.std.specs.Ordering.{nat_cmp};
ghost use Rattle.std.specs.List.Sorted.{IsStrictlySortedBy};
ghost use Rattle.pool_config.specs.Numbers.{IsNumberText, number_of, half_of, has_colon, is_colon};
ghost use Rattle.pool_config.specs.Numbers.{is_padded, ascending_with};

use mlb_base::{NoMemory, Sequence, TryCopy};
use std::alloc::Global;
use std::collections::BTreeSet;
use std::marker::Model;

/// Numbers of communities, ascending, each once.
pub struct CommunityNumbers {
    numbers: Sequence<u32>,
}

impl Drop for CommunityNumbers {
    fn drop(self) {
        let CommunityNumbers { numbers: _ } = self;
    }
}

impl Model for CommunityNumbers {
    ghost use Rattle.std.specs.Prelude.{ℕ, List};
    ghost use Rattle.std.specs.Ordering.{nat_cmp};
    ghost use Rattle.std.specs.List.Sorted.{IsStrictlySortedBy};

    ghost Value = { List ℕ };

    ghost view = { λ c. c.numbers };

    ghost invariant = { λ c. IsStrictlySortedBy nat_cmp c.numbers };
}

impl CommunityNumbers {
    /// The numbers, ascending.
    pub fn as_slice(&self) -> &[u32]
        ensures numbers { result.now ≡ self.now }
        ensures ascending { IsStrictlySortedBy nat_cmp self.now }
    {
        self.numbers.as_slice()
    }
}

impl TryCopy for CommunityNumbers {
    fn copy(&self) -> Result<CommunityNumbers, NoMemory> {
        Ok(CommunityNumbers {
            numbers: self.numbers.copy()?,
        })
    }
}

/// The numbers of a set.
pub fn numbers_from(alloc: Global, set: &BTreeSet<u32>) -> Result<CommunityNumbers, NoMemory>
    ensures { IfOk result (λ numbers. numbers ≡ set.now.keys) }
{
    let mut numbers = Sequence::new(alloc);
    for number in set.iter() {
        numbers.push(*number)?;
    }
    Ok(CommunityNumbers { numbers })
}

/// Whether the text has a colon.
pub(crate) fn has_colon(text: &str) -> bool
    ensures { result ≡ has_colon text.now }
{
    text.as_bytes().contains(&b':')
}

/// The text before the first colon and the one after it.
pub(crate) fn at_colon(text: &str) -> Option<(&str, &str)>
    ensures before { IfSome result (λ parts. parts.0.now ≡ before_first is_colon text.now) }
    ensures behind { IfSome result (λ parts. parts.1.now ≡ after_first is_colon text.now) }
    ensures none { IfNone result (after_first is_colon text.now ≡ []) }
{
    let (before, behind) = text.split_once(':')?;
    Some((before, behind))
}

/// The number of a community (RFC 1997) that is written `A:B`, both decimal from 0 to 65535 without
/// leading zeros: A times 65536 plus B. `None` for every other text.
pub fn read_number(text: &str) -> Option<u32>
    ensures value { result ≡ number_of text.now }
    ensures meaning { (n : ℕ) → (result ≡ Some n) ↔ IsNumberText text.now n }
{
    joined_halves(text)
}

fn joined_halves(text: &str) -> Option<u32>
    ensures value { result ≡ number_of text.now }
{
    let (first, second) = at_colon(text)?;
    let first = read_half(first)?;
    let second = read_half(second)?;
    Some(u32::from(first) * 65536 + u32::from(second))
}

/// A decimal number below 65536, without sign or leading zeros.
fn read_half(text: &str) -> Option<u16>
    ensures value { result ≡ half_of text.now }
{
    if is_padded(text.as_bytes()) {
        return None;
    }
    text.parse::<u16>().ok()
}

/// Whether the text begins with a plus, or with a zero before others.
pub(crate) fn is_padded(text: &[u8]) -> bool
    ensures { result ≡ is_padded text.now }
{
    match text {
        [] => false,
        [first] => *first == b'+',
        [first, ..] => *first == b'+' || *first == b'0',
    }
}
