//! The pools that serve a service unasked, in their order.
ghost use Rattle.std.specs.Prelude.{◌≡◌, map, slice_get, IfOk, Some};
ghost use Rattle.std.specs.Option.{option_copied};
ghost use Rattle.pool_choice.specs.Eligible.{AreEligible, is_offered, eligible, ranked_from};
ghost use Rattle.pool_choice.specs.Eligible.{ranked_cmp};
ghost use Rattle.pool_choice.specs.Rank.{rank_by, rank_of};
ghost use Rattle.pool_choice.specs.Sorted.{sorted};

use crate::serving::serves;
use kube_labels::Labels;
use kube_model::Service;
use mlb_base::{NoMemory, Sequence};
use pool_config::{CompiledAllocation, CompiledPool, Config};
use std::alloc::Global;

/// Places in the list of pools of a configuration, from 0.
pub type PoolIndexes = Sequence<usize>;

/// When the turn of a pool comes.
#[derive(Clone, Copy, PartialEq, Eq, PartialOrd, Ord)]
enum Rank {
    /// By its priority, which isn't 0.
    At(u32),
    /// Its priority is 0.
    Last,
    /// It has no service allocation.
    Unallocated,
}

/// A pool of a configuration: ranked pools are ordered by rank, then by place, which is the order
/// of the names.
#[derive(Clone, Copy, PartialEq, Eq, PartialOrd, Ord)]
struct RankedPool {
    rank: Rank,
    place: usize,
}

fn rank_in(allocation: Option<&CompiledAllocation>) -> Rank
    ensures { result ≡ rank_by (option_copied allocation.entry) }
{
    match allocation {
        None => Rank::Unallocated,
        Some(allocation) => {
            if allocation.priority == 0 {
                Rank::Last
            } else {
                Rank::At(allocation.priority)
            }
        }
    }
}

fn rank_of(pool: &CompiledPool) -> Rank
    ensures { result ≡ rank_of pool.now }
{
    rank_in(pool.allocation.as_ref())
}

fn is_offered(pool: &CompiledPool, service: &Service, namespace: &Labels) -> bool
    ensures { result ≡ is_offered service.now namespace.now pool.now }
{
    pool.auto_assign && serves(pool, service, namespace)
}

/// The pools that are offered to the service, as they are listed.
fn offered(
    alloc: Global,
    pools: &[CompiledPool],
    service: &Service,
    namespace: &Labels,
) -> Result<Vec<RankedPool>, NoMemory>
    ensures { IfOk result (λ ranked. ranked.items
        ≡ ranked_from service.now namespace.now 0 pools.now) }
{
    let mut ranked = Vec::new(alloc);
    for (place, pool) in pools.iter().enumerate() {
        if !is_offered(pool, service, namespace) {
            continue;
        }
        ranked.push(RankedPool {
            rank: rank_of(pool),
            place,
        })?;
    }
    Ok(ranked)
}

/// The same in their order.
fn in_order(
    alloc: Global,
    pools: &[CompiledPool],
    service: &Service,
    namespace: &Labels,
) -> Result<Vec<RankedPool>, NoMemory>
    ensures { IfOk result (λ ranked. ranked.items
        ≡ sorted ranked_cmp (ranked_from service.now namespace.now 0 pools.now)) }
{
    let mut ranked = offered(alloc, pools, service, namespace)?;
    ranked.sort_unstable();
    Ok(ranked)
}

fn places(alloc: Global, ranked: &[RankedPool]) -> Result<PoolIndexes, NoMemory>
    ensures { IfOk result (λ places. places ≡ map (λ e. e.place) ranked.now) }
{
    let mut places = PoolIndexes::new(alloc);
    for entry in ranked {
        places.push(entry.place)?;
    }
    Ok(places)
}

fn eligible_in(
    alloc: Global,
    pools: &[CompiledPool],
    service: &Service,
    namespace: &Labels,
) -> Result<PoolIndexes, NoMemory>
    ensures { IfOk result (λ places. places
        ≡ map (λ e. e.place) (sorted ranked_cmp
        (ranked_from service.now namespace.now 0 pools.now))) }
{
    let ranked = in_order(alloc, pools, service, namespace)?;
    places(alloc, ranked.as_slice())
}

/// The pools of the configuration that serve the service unasked, whose namespace has these labels:
/// those with a service allocation first, by priority ascending with 0 last, of one priority by
/// name; then the others by name.
pub fn eligible(
    alloc: Global,
    config: &Config,
    service: &Service,
    namespace: &Labels,
) -> Result<PoolIndexes, NoMemory>
    ensures value { IfOk result (λ places. map (slice_get config.now.pools) places
        ≡ map Some (eligible service.now namespace.now config.now.pools)) }
    ensures meaning { AreEligible service.now namespace.now config.now.pools
        (eligible service.now namespace.now config.now.pools) }
{
    eligible_in(alloc, config.pools.as_slice(), service, namespace)
}
