//! The preferences that advertisements have, pool by pool.
ghost use Rattle.std.specs.Prelude.{◌≡◌, ℕ, IfOk, OnOk};
ghost use Rattle.std.specs.Option.{option_copied};
ghost use Rattle.ip_ranges.specs.declared.family.Family.TheVariants.{V4, V6};

use crate::choice::ChoosesPools;
use crate::compiled::{CompiledBgp, CompiledPool};
use ip_ranges::{Family, Span};
use mlb_base::NoMemory;
use std::alloc::Global;
use std::collections::BTreeMap;

/// The preference of all advertisements of a length, and `None` where they have several.
#[derive(Drop)]
struct Preferences {
    by_length: BTreeMap<u8, Option<u32>>,
}

/// The preferences of the advertisements that choose a pool, by how long their prefixes of each
/// family are.
#[derive(Drop)]
pub(crate) struct PoolPreferences<'a> {
    pool: &'a CompiledPool,
    v4: Preferences,
    v6: Preferences,
}

impl Preferences {
    ghost use Rattle.pool_config.specs.Preferences.{Knows, joined, are_several};

    fn new(alloc: Global) -> Preferences {
        Preferences {
            by_length: BTreeMap::new(alloc),
        }
    }

    /// One more advertisement has the length and the preference.
    fn note(&mut self, length: u8, preference: u32) -> Result<(), NoMemory>
        ensures noted { OnOk result (Knows self.new length preference) }
        ensures kept { OnOk result ((l p : ℕ) → Knows self.old l p → Knows self.new l p) }
    {
        let joined = Preferences::joined(self.by_length.get(&length), preference);
        let _before = self.by_length.insert(length, joined)?;
        Ok(())
    }

    /// What is known of a length once one more advertisement of it has the preference.
    fn joined(held: Option<&Option<u32>>, preference: u32) -> Option<u32>
        ensures { result ≡ joined (option_copied held.entry) preference }
    {
        match held {
            None => Some(preference),
            Some(None) => None,
            Some(Some(known)) => {
                if *known == preference {
                    Some(preference)
                } else {
                    None
                }
            }
        }
    }

    /// Whether the advertisements of the length have several preferences.
    fn are_several(&self, length: u8) -> bool
        ensures { result ≡ are_several self.now length }
    {
        match self.by_length.get(&length) {
            Some(None) => true,
            Some(Some(_)) | None => false,
        }
    }
}

impl<'a> PoolPreferences<'a> {
    ghost use Rattle.pool_config.specs.Preferences.{KnowsEach, KnowsPool, Notes, are_several_at};
    ghost use Rattle.pool_config.specs.Preferences.{clashes_at, of_family};
    ghost use Rattle.std.specs.List.{list_any};

    /// Those of the advertisements that choose the pool.
    pub(crate) fn new(
        alloc: Global,
        pool: &'a CompiledPool,
        bgp: &[CompiledBgp],
    ) -> Result<PoolPreferences<'a>, NoMemory>
        ensures pool { IfOk result (λ made. made.pool.now ≡ pool.now) }
        ensures known { IfOk result (KnowsPool bgp.now) }
    {
        let mut v4 = Preferences::new(alloc);
        let mut v6 = Preferences::new(alloc);
        let Ok(()) = PoolPreferences::note_all(pool, bgp, &mut v4, &mut v6) else {
            drop(v4);
            drop(v6);
            return Err(NoMemory);
        };
        Ok(PoolPreferences { pool, v4, v6 })
    }

    fn note_all(
        pool: &CompiledPool,
        bgp: &[CompiledBgp],
        v4: &mut Preferences,
        v6: &mut Preferences,
    ) -> Result<(), NoMemory>
        ensures v4 { OnOk result (KnowsEach V4 pool.now bgp.now v4.new) }
        ensures v6 { OnOk result (KnowsEach V6 pool.now bgp.now v6.new) }
    {
        for advertisement in bgp {
            PoolPreferences::note(pool, advertisement, v4, v6)?;
        }
        Ok(())
    }

    fn note(
        pool: &CompiledPool,
        advertisement: &CompiledBgp,
        v4: &mut Preferences,
        v6: &mut Preferences,
    ) -> Result<(), NoMemory>
        ensures v4 { OnOk result (Notes V4 pool.now advertisement.now v4.old v4.new) }
        ensures v6 { OnOk result (Notes V6 pool.now advertisement.now v6.old v6.new) }
    {
        if advertisement.chooses(pool) {
            v4.note(advertisement.length.bits(), advertisement.local_pref)?;
            v6.note(advertisement.length_v6.bits(), advertisement.local_pref)?;
        }
        Ok(())
    }

    /// Whether the advertisement clashes with another one that chooses the pool.
    pub(crate) fn clashes(&self, advertisement: &CompiledBgp) -> bool
        ensures { result ≡ clashes_at advertisement.now self.now }
    {
        advertisement.chooses(self.pool) && self.are_several(advertisement)
    }

    /// Whether advertisements of a length of this one have several preferences, for a family of
    /// which the pool has an entry.
    fn are_several(&self, advertisement: &CompiledBgp) -> bool
        ensures { result ≡ are_several_at advertisement.now self.now }
    {
        let v4 = self.v4.are_several(advertisement.length.bits());
        let v6 = self.v6.are_several(advertisement.length_v6.bits());
        PoolPreferences::has_family(self.pool.spans.as_slice(), v4, v6)
    }

    /// Whether some span is of a family of which this is so.
    fn has_family(spans: &[Span], v4: bool, v6: bool) -> bool
        ensures { result ≡ list_any (λ span. of_family span.family v4 v6) spans.now }
    {
        for span in spans {
            if PoolPreferences::of_family(span.family, v4, v6) {
                return true;
            }
        }
        false
    }

    fn of_family(family: Family, v4: bool, v6: bool) -> bool
        ensures { result ≡ of_family family v4 v6 }
    {
        match family {
            Family::V4 => v4,
            Family::V6 => v6,
        }
    }
}
