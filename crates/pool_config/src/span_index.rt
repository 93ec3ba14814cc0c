//! The spans of a configuration in order, by which the pool of an address is found by binary
//! search.
ghost use Rattle.std.specs.Prelude.{◌≡◌, ◌≤◌, true, false, ◌++◌, [], length, nat_le, IfOk, OnOk};
ghost use Rattle.std.specs.Prelude.{IfSome, IfNone};
ghost use Rattle.std.specs.List.Sorted.{IsPermutation, IsNonDecreasingBy, IsPartitionPoint};

use crate::compiled::CompiledPool;
use ip_ranges::{Address, Family, Span};
use kube_model::both;
use mlb_base::NoMemory;
use std::alloc::Global;

/// A span of a family, and the place of its pool.
#[derive(Clone, Copy)]
struct PlacedSpan {
    low: u128,
    high: u128,
    pool: usize,
}

/// The spans of one family, by where they begin.
#[derive(Drop)]
struct FamilyIndex {
    spans: Vec<PlacedSpan>,
    ghost ascend: { IsNonDecreasingBy (λ span. span.low) spans.items },
}

/// The spans of both families.
pub(crate) struct SpanIndex {
    v4: FamilyIndex,
    v6: FamilyIndex,
}

impl Drop for SpanIndex {
    fn drop(self) {
        let SpanIndex { v4: _, v6: _ } = self;
    }
}

impl FamilyIndex {
    ghost use Rattle.pool_config.specs.SpanIndex.{placed_in, spans_in, IsHolder, AreCut};
    ghost use Rattle.std.specs.List.{filter_map};

    /// Of no pool, which takes no memory.
    fn empty(alloc: Global) -> FamilyIndex
        ensures { result.spans.items ≡ [] }
    {
        FamilyIndex {
            spans: Vec::new(alloc),
        }
    }

    /// Those spans of the pools that are of the family.
    fn new(alloc: Global, pools: &[CompiledPool], family: Family) -> Result<FamilyIndex, NoMemory>
        ensures { IfOk result (λ index. IsPermutation
            (spans_in family 0 pools.now) index.spans.items) }
    {
        let mut spans = Vec::new(alloc);
        FamilyIndex::push_pools(&mut spans, pools, family)?;
        spans.sort_unstable_by_key(|span| span.low);
        Ok(FamilyIndex { spans })
    }

    fn push_pools(
        spans: &mut Vec<PlacedSpan>,
        pools: &[CompiledPool],
        family: Family,
    ) -> Result<(), NoMemory>
        ensures { OnOk result (spans.new.items ≡ spans.old.items ++ spans_in family 0 pools.now) }
    {
        for (place, pool) in pools.iter().enumerate() {
            FamilyIndex::push_spans(spans, pool.spans.as_slice(), family, place)?;
        }
        Ok(())
    }

    fn push_spans(
        spans: &mut Vec<PlacedSpan>,
        all: &[Span],
        family: Family,
        pool: usize,
    ) -> Result<(), NoMemory>
        ensures { OnOk result (spans.new.items
            ≡ spans.old.items ++ filter_map (placed_in family pool) all.now) }
    {
        for span in all {
            if span.family == family {
                spans.push(PlacedSpan {
                    low: span.low,
                    high: span.high,
                    pool,
                })?;
            }
        }
        Ok(())
    }

    /// How many spans begin at the number or below it. They stand before all others.
    fn begun(&self, number: u128) -> usize
        ensures bound { result ≤ length self.now.spans.items }
        ensures parts { IsPartitionPoint (λ span. nat_le span.low number ≡ true)
            (λ span. nat_le span.low number ≡ false) self.now.spans.items result }
    {
        self.spans.partition_point(|span| span.low <= number)
    }

    /// The pool of the last span that begins at the number or below it, where that span has the
    /// number.
    fn holder(&self, number: u128) -> Option<usize>
        ensures found { IfSome result (IsHolder self.now.spans.items number) }
        ensures none { IfNone result (AreCut self.now.spans.items number) }
    {
        let begun = self.begun(number);
        if begun == 0 {
            return None;
        }
        let last = self.spans[begun - 1];
        if number <= last.high {
            Some(last.pool)
        } else {
            None
        }
    }
}

impl SpanIndex {
    ghost use Rattle.pool_config.specs.SpanIndex.{index_of, HasSpansOf, IsHolder, AreCut};

    /// Of no pool, which takes no memory.
    pub(crate) fn empty(alloc: Global) -> SpanIndex
        ensures v4 { result.v4.spans.items ≡ [] }
        ensures v6 { result.v6.spans.items ≡ [] }
    {
        SpanIndex {
            v4: FamilyIndex::empty(alloc),
            v6: FamilyIndex::empty(alloc),
        }
    }

    /// The spans of the pools.
    pub(crate) fn new(alloc: Global, pools: &[CompiledPool]) -> Result<SpanIndex, NoMemory>
        ensures { IfOk result (HasSpansOf pools.now) }
    {
        let (v4, v6) = both(
            FamilyIndex::new(alloc, pools, Family::V4),
            FamilyIndex::new(alloc, pools, Family::V6),
        )?;
        Ok(SpanIndex { v4, v6 })
    }

    fn of_family(&self, family: Family) -> &FamilyIndex
        ensures { result.now ≡ index_of family self.now }
    {
        match family {
            Family::V4 => &self.v4,
            Family::V6 => &self.v6,
        }
    }

    /// The place of the pool that has the address, where no two spans overlap.
    pub(crate) fn holder(&self, address: &Address) -> Option<usize>
        ensures found { IfSome result (IsHolder
            (index_of address.now.family self.now).spans.items address.now.number) }
        ensures none { IfNone result (AreCut
            (index_of address.now.family self.now).spans.items address.now.number) }
    {
        self.of_family(address.family).holder(address.number)
    }
}
