//! The shortest list of prefixes that has exactly the addresses of a range.
ghost use Rattle.std.specs.Prelude.{◌≡◌, ◌+◌, ◌*◌, ◌%◌, ◌^◌, ◌≤◌, ◌++◌, ◌&&◌, ◌||◌, nat_lt, nat_le};
ghost use Rattle.std.specs.Prelude.{IsTrue, IfOk, OnOk, length, ◌==◌};
ghost use Rattle.std.specs.List.{AllByRecursion, list_any};
ghost use Rattle.ip_ranges.specs.Values.{IsRange, width_of};
ghost use Rattle.ip_ranges.specs.Cover.{IsCover, IsPart, IsPlaced, cover_of, cover_within};
ghost use Rattle.ip_ranges.specs.Cover.{least_of, least_length_of};

use crate::prefix::low_ones;
use crate::{Prefix, PrefixList, Span};
use mlb_base::NoMemory;
use std::alloc::Global;

/// The shortest ascending list of disjoint prefixes that has exactly the range's addresses: at most
/// two for each bit of the family's width.
pub fn cover(alloc: Global, span: &Span) -> Result<PrefixList, NoMemory>
    ensures cover { IfOk result (λ prefixes. IsCover span.now prefixes) }
    ensures value { IfOk result (λ prefixes. prefixes ≡ cover_of span.now) }
    ensures short { IfOk result (λ prefixes. length prefixes ≤ 2 * width_of span.now.family) }
    ensures range { IsRange span.now }
{
    let mut prefixes = PrefixList::new(alloc);
    add_cover(span, span.family.width(), 0, &mut prefixes)?;
    Ok(prefixes)
}

/// The least length of a prefix in the range's cover, which takes no memory.
pub fn least_length(span: &Span) -> u8
    ensures value { result ≡ least_length_of span.now }
    ensures least { AllByRecursion (λ p. result ≤ p.length) (cover_of span.now) }
    ensures found { IsTrue (list_any (λ p. p.length == result) (cover_of span.now)) }
    ensures range { IsRange span.now }
{
    least_within(span, span.family.width(), 0)
}

/// Those addresses of a block that a range has.
enum Part {
    Nothing,
    /// All of them.
    Whole { prefix: Prefix },
    /// Some of them: those of its two halves, of `2^half` addresses each, the upper one from
    /// `middle` on.
    Halves { half: u8, middle: u128 },
}

/// What the range has of the `2^bits` addresses from `base` on.
fn part_of(span: &Span, bits: u8, base: u128) -> Part
    requires { IsPlaced span.now bits base }
    ensures { IsPart span.now bits base result }
{
    let last = base + low_ones(bits);
    if is_apart(span, base, last) {
        return Part::Nothing;
    }
    if is_inside(span, base, last) {
        let prefix = Prefix {
            family: span.family,
            number: base,
            length: span.family.width() - bits,
        };
        return Part::Whole { prefix };
    }
    let half = bits - 1;
    Part::Halves {
        half,
        middle: base + low_ones(half) + 1,
    }
}

/// Appends the cover of those of the `2^bits` addresses from `base` on that are the range's.
fn add_cover(span: &Span, bits: u8, base: u128, prefixes: &mut PrefixList) -> Result<(), NoMemory>
    requires { IsPlaced span.now bits base }
    ensures { OnOk result (prefixes.new ≡ prefixes.old ++ cover_within span.now bits base) }
{
    match part_of(span, bits, base) {
        Part::Nothing => Ok(()),
        Part::Whole { prefix } => prefixes.push(prefix),
        Part::Halves { half, middle } => {
            add_cover(span, half, base, prefixes)?;
            add_cover(span, half, middle, prefixes)
        }
    }
}

/// The least length in the cover of those of the `2^bits` addresses from `base` on that are the
/// range's, and 128 where none is.
fn least_within(span: &Span, bits: u8, base: u128) -> u8
    requires { IsPlaced span.now bits base }
    ensures { result ≡ least_of (cover_within span.now bits base) }
{
    match part_of(span, bits, base) {
        Part::Nothing => 128,
        Part::Whole { prefix } => prefix.length,
        Part::Halves { half, middle } => {
            let lower = least_within(span, half, base);
            let upper = least_within(span, half, middle);
            lower.min(upper)
        }
    }
}

/// Whether the range has none of the addresses from the first to the last.
fn is_apart(span: &Span, first: u128, last: u128) -> bool
    ensures { result ≡ (nat_lt last span.now.low || nat_lt span.now.high first) }
{
    last < span.low || span.high < first
}

/// Whether the range has all of the addresses from the first to the last.
fn is_inside(span: &Span, first: u128, last: u128) -> bool
    ensures { result ≡ (nat_le span.now.low first && nat_le last span.now.high) }
{
    span.low <= first && last <= span.high
}
