//! Texts of large communities.
ghost use Rattle.std.specs.Prelude.{◌≡◌, ◌↔◌, Some};
ghost use Rattle.large_numbers.specs.declared.numbers.LargeCommunity.{LargeCommunity as LargeValue};
ghost use Rattle.pool_config.specs.Large.{IsLargeText, begins_large, large_of, local_of, word_of};
ghost use Rattle.pool_config.specs.Large.{words_of};

use crate::numbers::{at_colon, is_padded};
use large_numbers::LargeCommunity;

/// Whether the text begins as a large community's.
pub(crate) fn begins_large(text: &str) -> bool
    ensures { result ≡ begins_large text.now }
{
    text.starts_with("large:")
}

/// The large community (RFC 8092) that is written `large:A:B:C`, each decimal from 0 to 4294967295
/// without leading zeros. `None` for every other text.
pub fn read_large(text: &str) -> Option<LargeCommunity>
    ensures value { result ≡ large_of text.now }
    ensures meaning { (c : LargeValue) → (result ≡ Some c) ↔ IsLargeText text.now c }
{
    large_by_parts(text)
}

fn large_by_parts(text: &str) -> Option<LargeCommunity>
    ensures value { result ≡ large_of text.now }
{
    if !begins_large(text) {
        return None;
    }
    let (_, numbers) = at_colon(text)?;
    read_words(numbers)
}

/// The numbers `A:B:C`.
fn read_words(text: &str) -> Option<LargeCommunity>
    ensures value { result ≡ words_of text.now }
{
    let (global, local) = at_colon(text)?;
    let global = read_word(global)?;
    let (first, second) = read_local(local)?;
    Some(LargeCommunity {
        global,
        first,
        second,
    })
}

/// The two parts of the local data, `B:C`.
fn read_local(text: &str) -> Option<(u32, u32)>
    ensures value { result ≡ local_of text.now }
{
    let (first, second) = at_colon(text)?;
    let first = read_word(first)?;
    let second = read_word(second)?;
    Some((first, second))
}

/// A decimal number below 2^32, without sign or leading zeros.
fn read_word(text: &str) -> Option<u32>
    ensures value { result ≡ word_of text.now }
{
    if is_padded(text.as_bytes()) {
        return None;
    }
    text.parse::<u32>().ok()
}
