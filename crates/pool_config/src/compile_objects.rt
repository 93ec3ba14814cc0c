//! What the objects of a configuration are compiled to.
ghost use Rattle.std.specs.Prelude.{◌≡◌, IfOk, IfErr, OnOk, Ok, Err, None};
ghost use Rattle.kube_model.specs.declared.config_fault.ConfigFault.{ConfigFault};
ghost use Rattle.pool_config.specs.Compile.{compiled};
ghost use Rattle.pool_config.specs.ConfigValue.{AreApart, placed_spans};
ghost use Rattle.pool_config.specs.SpanIndex.{HasSpansOf};
ghost use Rattle.pool_config.specs.Faults.{HasNoFault, IsFirstFault};
ghost use Rattle.pool_config.specs.Found.{fault_of};
ghost use Rattle.pool_config.specs.Lists.{lists_of};
ghost use Rattle.pool_config.specs.Objects.{objects_of};
ghost use Rattle.pool_config.specs.Search.{found_among, pool_rows};

use crate::compiled::{CompiledBgp, CompiledPool};
use crate::config::Config;
use crate::first_fault::{Found, found_beside_pools, found_in_pools};
use crate::object_set::ObjectSet;
use crate::reading::{read_bgps, read_l2s, read_peers, read_pools};
use crate::span_index::SpanIndex;
use kube_model::{ConfigFault, both};
use mlb_base::{NoMemory, TryCopy};
use std::alloc::Global;
use thiserror::Error;

/// Why there is no configuration.
///
/// `Refused` names the first fault among the objects.
#[derive(Debug, Drop, Error)]
pub enum CompileFault {
    #[error("the configuration is at fault")]
    Refused { fault: ConfigFault },
    #[error("out of memory")]
    NoMemory,
}

impl From<NoMemory> for CompileFault {
    ghost use Rattle.std.specs.Prelude.{◌≡◌};
    ghost use Rattle.pool_config.specs.declared.compile_objects.CompileFault.TheVariants.{NoMemory as Memory};

    ghost from_gives = { λ _ e. e ≡ Memory };

    fn from(_refused: NoMemory) -> Self {
        CompileFault::NoMemory
    }
}

/// The configuration of these objects, or the first fault among them.
///
/// The conditions of a fault are tested in their order, each over all objects, which go by name in
/// the order of its bytes, their entries and members as they are listed. `Refused` has the fault
/// that holds and that none comes before. Where there is none, each list has all objects of its
/// kind by name, with their entries, selectors and communities read. `NoMemory` may come at any
/// time.
pub fn compile(alloc: Global, objects: &ObjectSet) -> Result<Config, CompileFault>
    ensures accepted { IfOk result
        (λ config. HasNoFault (objects_of objects.now)
        × (config ≡ lists_of (objects_of objects.now))) }
    ensures refused { IfErr result (λ e. (fault : ConfigFault) → e ≡ CompileFault.Refused fault
        → IsFirstFault (objects_of objects.now) fault) }
    ensures compiled { IfOk result (λ config. compiled objects.now ≡ Ok config) }
    ensures fault { IfErr result (λ e. (fault : ConfigFault) → e ≡ CompileFault.Refused fault
        → compiled objects.now ≡ Err fault) }
{
    compile_in_order(alloc, objects)
}

fn compile_in_order(alloc: Global, objects: &ObjectSet) -> Result<Config, CompileFault>
    ensures compiled { IfOk result (λ config. compiled objects.now ≡ Ok config) }
    ensures refused { IfErr result (λ e. (fault : ConfigFault) → e ≡ CompileFault.Refused fault
        → compiled objects.now ≡ Err fault) }
{
    if let Some(found) = found_in_pools(alloc, objects)? {
        return Err(refusal(found));
    }
    let pools_l2 = both(
        read_pools(alloc, &objects.pools),
        read_l2s(alloc, &objects.l2s),
    );
    let bgp_peers = both(
        read_bgps(alloc, &objects.communities, &objects.bgps),
        read_peers(alloc, &objects.peers),
    );
    let ((pools, l2), (bgp, peers)) = both(pools_l2, bgp_peers)?;
    match checked_index(alloc, objects, pools.as_slice(), bgp.as_slice()) {
        Ok(index) => Ok(Config {
            pools,
            l2,
            bgp,
            peers,
            index,
        }),
        Err(fault) => {
            drop(pools);
            drop(l2);
            drop(bgp);
            drop(peers);
            Err(fault)
        }
    }
}

/// The index of the spans, where nothing is wrong beside the pools by themselves.
fn checked_index(
    alloc: Global,
    objects: &ObjectSet,
    pools: &[CompiledPool],
    bgp: &[CompiledBgp],
) -> Result<SpanIndex, CompileFault>
    requires checked { found_among (objects_of objects.now) pool_rows ≡ None }
    requires pools { pools.now ≡ (lists_of (objects_of objects.now)).pools }
    requires bgp { bgp.now ≡ (lists_of (objects_of objects.now)).bgp }
    ensures compiled { OnOk result (compiled objects.now ≡ Ok (lists_of (objects_of objects.now))) }
    ensures apart { OnOk result (AreApart (placed_spans pools.now)) }
    ensures index { IfOk result (HasSpansOf pools.now) }
    ensures refused { IfErr result (λ e. (fault : ConfigFault) → e ≡ CompileFault.Refused fault
        → compiled objects.now ≡ Err fault) }
{
    if let Some(found) = found_beside_pools(alloc, objects, pools, bgp)? {
        return Err(refusal(found));
    }
    Ok(SpanIndex::new(alloc, pools)?)
}

/// The refusal of what was found.
fn refusal(found: Found<'_>) -> CompileFault
    ensures { (fault : ConfigFault) → result ≡ CompileFault.Refused fault
        → fault ≡ fault_of found.entry }
{
    match found.name.copy() {
        Ok(name) => CompileFault::Refused {
            fault: ConfigFault {
                cause: found.cause,
                kind: found.kind,
                name,
            },
        },
        Err(NoMemory) => CompileFault::NoMemory,
    }
}
