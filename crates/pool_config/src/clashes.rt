//! Advertisements that give one route two preferences.
ghost use Rattle.std.specs.Prelude.{◌≡◌, ◌==◌, ◌++◌, ◌∷◌, [], find, map, IfOk, IsOkAnd, OnOk};
ghost use Rattle.std.specs.List.{AllByRecursion, list_any};
ghost use Rattle.std.specs.Option.{option_copied, option_map};
ghost use Rattle.pool_config.specs.Search.{first_pair, clash, has_equal_length};
ghost use Rattle.pool_config.specs.Clashing.{clashing_from, first_clashing};
ghost use Rattle.pool_config.specs.Preferences.{KnowsPool, clashes_anywhere};

use crate::advertised::length_for;
use crate::choice::ChoosesPools;
use crate::compiled::{CompiledBgp, CompiledPool};
use crate::preferences::PoolPreferences;
use crate::search::any_passes;
use kube_labels::Text;
use mlb_base::NoMemory;
use std::alloc::Global;

/// The later one of the first two advertisements that choose a common pool and have different
/// preferences for one route. What is known of each pool shows which advertisements clash with
/// another one, so that the others are gone through only for the first of them.
pub(crate) fn clashing_bgp<'a>(
    alloc: Global,
    pools: &[CompiledPool],
    bgp: &'a [CompiledBgp],
) -> Result<Option<&'a Text>, NoMemory>
    ensures { IfOk result (λ name. option_copied name
        ≡ first_pair (λ adv. adv.name) (clash pools.now) bgp.now) }
{
    let known = preferences_of(alloc, pools, bgp)?;
    let found = first_clashing(known.as_slice(), pools, bgp);
    drop(known);
    Ok(found)
}

/// The preferences at each pool. Each advertisement is asked once whether it chooses a pool.
#[tactic(auto, using(crate::proofs::KnownClashes::all_push))]
fn preferences_of<'a>(
    alloc: Global,
    pools: &'a [CompiledPool],
    bgp: &[CompiledBgp],
) -> Result<Vec<PoolPreferences<'a>>, NoMemory>
    ensures pools { IfOk result (λ known. map (λ held. held.pool.now) known.items ≡ pools.now) }
    ensures known { IfOk result (λ known. AllByRecursion (KnowsPool bgp.now) known.items) }
{
    let mut known = Vec::new(alloc);
    for pool in pools {
        let Ok(()) = push_made(&mut known, PoolPreferences::new(alloc, pool, bgp)) else {
            drop(known);
            return Err(NoMemory);
        };
    }
    Ok(known)
}

/// Appends what was made, if there was memory for it.
fn push_made<T: Drop>(held: &mut Vec<T>, made: Result<T, NoMemory>) -> Result<(), NoMemory>
    ensures { OnOk result (IsOkAnd made (λ item. held.new.items ≡ held.old.items ++ item ∷ [])) }
{
    held.push(made?)?;
    Ok(())
}

/// Whether the advertisement clashes with another one at some pool.
fn clashes_anywhere(known: &[PoolPreferences<'_>], advertisement: &CompiledBgp) -> bool
    ensures { result ≡ clashes_anywhere known.now advertisement.now }
{
    any_passes(known, |held: &PoolPreferences<'_>| {
        held.clashes(advertisement)
    })
}

fn first_clashing<'a>(
    known: &[PoolPreferences<'_>],
    pools: &[CompiledPool],
    bgp: &'a [CompiledBgp],
) -> Option<&'a Text>
    ensures { option_copied result ≡ first_clashing known.now pools.now bgp.now }
{
    for (index, advertisement) in bgp.iter().enumerate() {
        if let Some(name) = clashing_from(known, pools, advertisement, &bgp[index + 1..]) {
            return Some(name);
        }
    }
    None
}

/// Looks after the advertisement only where it clashes with another one. At the first that does,
/// that one is behind.
#[tactic(auto, unfolding(crate::specs::Clashing::clashing_from))]
fn clashing_from<'a>(
    known: &[PoolPreferences<'_>],
    pools: &[CompiledPool],
    advertisement: &CompiledBgp,
    behind: &'a [CompiledBgp],
) -> Option<&'a Text>
    ensures { option_copied result
        ≡ clashing_from known.now pools.now advertisement.now behind.now }
{
    if clashes_anywhere(known, advertisement) {
        clashing_with(pools, advertisement, behind)
    } else {
        None
    }
}

fn clashing_with<'a>(
    pools: &[CompiledPool],
    advertisement: &CompiledBgp,
    behind: &'a [CompiledBgp],
) -> Option<&'a Text>
    ensures { option_copied result
        ≡ option_map (λ adv. adv.name) (find (clash pools.now advertisement.now) behind.now) }
{
    for other in behind {
        if clash(pools, advertisement, other) {
            return Some(&other.name);
        }
    }
    None
}

fn clash(pools: &[CompiledPool], first: &CompiledBgp, second: &CompiledBgp) -> bool
    ensures { result ≡ clash pools.now first.now second.now }
{
    if first.local_pref == second.local_pref {
        return false;
    }
    for pool in pools {
        if first.chooses(pool) && second.chooses(pool) && has_equal_length(first, second, pool) {
            return true;
        }
    }
    false
}

fn has_equal_length(first: &CompiledBgp, second: &CompiledBgp, pool: &CompiledPool) -> bool
    ensures { result ≡ list_any (has_equal_length first.now second.now) pool.now.spans }
{
    for span in pool.spans.as_slice() {
        if length_for(first, span.family) == length_for(second, span.family) {
            return true;
        }
    }
    false
}
