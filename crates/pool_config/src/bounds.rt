//! Where the spans of a configuration begin and where they end.
ghost use Rattle.std.specs.Prelude.{◌≡◌, ◌<◌, ◌↔◌, List, ◌++◌, IsTrue, IfOk, OnOk};
ghost use Rattle.std.specs.List.{AllByRecursion, count_by};
ghost use Rattle.std.specs.List.Sorted.{IsPermutation, IsNonDecreasing};
ghost use Rattle.ip_ranges.specs.Values.{SpanValue, IsRange, overlaps};
ghost use Rattle.pool_config.specs.Bounds.{lows_in, highs_in, all_spans};

use crate::compiled::CompiledPool;
use ip_ranges::{Family, Span};
use kube_model::both;
use mlb_base::NoMemory;
use std::alloc::Global;

/// The numbers that the spans of one family begin with, and those that they end with, both
/// ascending.
#[derive(Drop)]
struct FamilyBounds {
    lows: Vec<u128>,
    highs: Vec<u128>,
    ghost lows_ascend: { IsNonDecreasing lows.items },
    ghost highs_ascend: { IsNonDecreasing highs.items },
}

/// The bounds of the spans of both families.
#[derive(Drop)]
pub(crate) struct Bounds {
    v4: FamilyBounds,
    v6: FamilyBounds,
}

impl FamilyBounds {
    ghost use Rattle.pool_config.specs.Meeting.{begun_at, ended_below};

    /// The bounds of those spans of the pools that are of the family.
    fn new(alloc: Global, pools: &[CompiledPool], family: Family) -> Result<FamilyBounds, NoMemory>
        ensures lows { IfOk result (λ bounds.
            IsPermutation (lows_in family (all_spans pools.now)) bounds.lows.items) }
        ensures highs { IfOk result (λ bounds.
            IsPermutation (highs_in family (all_spans pools.now)) bounds.highs.items) }
        ensures ranges { OnOk result (AllByRecursion IsRange (all_spans pools.now)) }
    {
        let mut lows = Vec::new(alloc);
        let mut highs = Vec::new(alloc);
        push_all_bounds(pools, family, &mut lows, &mut highs)?;
        lows.sort_unstable();
        highs.sort_unstable();
        Ok(FamilyBounds { lows, highs })
    }

    /// How many spans begin at the number or below it.
    fn begun_at(&self, number: u128) -> usize
        ensures { result ≡ begun_at number self.now }
    {
        self.lows.partition_point(|low| *low <= number)
    }

    /// How many spans end below the number.
    fn ended_below(&self, number: u128) -> usize
        ensures { result ≡ ended_below number self.now }
    {
        self.highs.partition_point(|high| *high < number)
    }
}

impl Bounds {
    ghost use Rattle.pool_config.specs.Meeting.{AreBoundsOf, bounds_of, meets_another};

    /// The bounds of the pools' spans.
    pub(crate) fn new(alloc: Global, pools: &[CompiledPool]) -> Result<Bounds, NoMemory>
        ensures { IfOk result (AreBoundsOf (all_spans pools.now)) }
    {
        let (v4, v6) = both(
            FamilyBounds::new(alloc, pools, Family::V4),
            FamilyBounds::new(alloc, pools, Family::V6),
        )?;
        Ok(Bounds { v4, v6 })
    }

    fn of_family(&self, family: Family) -> &FamilyBounds
        ensures { result.now ≡ bounds_of family self.now }
    {
        match family {
            Family::V4 => &self.v4,
            Family::V6 => &self.v6,
        }
    }

    /// Whether the span, which is one of those that are counted, overlaps another one besides
    /// itself. All that have begun by its end overlap it but those that have ended before it
    /// begins.
    pub(crate) fn meets_another(&self, span: &Span) -> bool
        ensures test { result ≡ meets_another self.now span.now }
        ensures exact { (spans : List SpanValue) → AreBoundsOf spans self.now
            → IsTrue result ↔ (1 < count_by (overlaps span.now) spans) }
    {
        let bounds = self.of_family(span.family);
        bounds.ended_below(span.low) + 1 < bounds.begun_at(span.high)
    }
}

fn push_all_bounds(
    pools: &[CompiledPool],
    family: Family,
    lows: &mut Vec<u128>,
    highs: &mut Vec<u128>,
) -> Result<(), NoMemory>
    ensures lows { OnOk result
        (lows.new.items ≡ lows.old.items ++ lows_in family (all_spans pools.now)) }
    ensures highs { OnOk result
        (highs.new.items ≡ highs.old.items ++ highs_in family (all_spans pools.now)) }
    ensures ranges { OnOk result (AllByRecursion IsRange (all_spans pools.now)) }
{
    for pool in pools {
        push_bounds(pool.spans.as_slice(), family, lows, highs)?;
    }
    Ok(())
}

fn push_bounds(
    spans: &[Span],
    family: Family,
    lows: &mut Vec<u128>,
    highs: &mut Vec<u128>,
) -> Result<(), NoMemory>
    ensures lows { OnOk result (lows.new.items ≡ lows.old.items ++ lows_in family spans.now) }
    ensures highs { OnOk result (highs.new.items ≡ highs.old.items ++ highs_in family spans.now) }
    ensures ranges { OnOk result (AllByRecursion IsRange spans.now) }
{
    for span in spans {
        if span.family == family {
            lows.push(span.low)?;
            highs.push(span.high)?;
        }
    }
    Ok(())
}
