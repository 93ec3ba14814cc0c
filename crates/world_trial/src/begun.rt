//! The world that a trial begins with.
ghost use Rattle.std.specs.Prelude.{◌≡◌, [], ◌∷◌, IfOk};
ghost use Rattle.world_trial.specs.Begun.{pool_of, first_pools, first_world};

use ctl_world::World;
use kube_labels::{Labels, Text, TextList};
use kube_model::{Object, ObjectList, Pool};
use mlb_base::{NoMemory, Sequence};
use std::alloc::Global;

fn one_text(alloc: Global, text: &str) -> Result<TextList, NoMemory>
    ensures { IfOk result (λ texts. texts ≡ text.now ∷ []) }
{
    let mut texts = Sequence::new(alloc);
    texts.push(Text::new(alloc, text)?)?;
    Ok(texts)
}

fn pool(alloc: Global, name: &str, entry: &str, avoid_buggy: bool) -> Result<Pool, NoMemory>
    ensures { IfOk result (λ pool. pool ≡ pool_of name.now entry.now avoid_buggy) }
{
    Ok(Pool {
        name: Text::new(alloc, name)?,
        labels: Labels::new(alloc),
        entries: one_text(alloc, entry)?,
        auto_assign: true,
        avoid_buggy,
        allocation: None,
    })
}

fn first_pools(alloc: Global) -> Result<ObjectList, NoMemory>
    ensures { IfOk result (λ objects. objects ≡ first_pools) }
{
    let mut objects = Sequence::new(alloc);
    let first = pool(alloc, "p1", "192.0.2.0-192.0.2.15", false)?;
    objects.push(Object::Pool(first))?;
    let second = pool(alloc, "p2", "198.51.100.0/29", true)?;
    objects.push(Object::Pool(second))?;
    Ok(objects)
}

/// Two pools, no services and no class.
#[tactic(auto, unfolding(crate::specs::Begun::first_world))]
pub(crate) fn first_world(alloc: Global) -> Result<World, NoMemory>
    ensures { IfOk result (λ world. world ≡ first_world) }
{
    let pools = first_pools(alloc)?;
    World::new(alloc, pools, None)
}
