//! What the core holds, and what it still has to decide.
ghost use Rattle.std.specs.Prelude.{◌≡◌, [], IfOk};
ghost use Rattle.core_rules.specs.Core.{fresh, is_ready, pools_in};

use alloc_book::Book;
use core_keys::{AwaitingKeys, Keys, WaitingKeys};
use kube_labels::Text;
use kube_model::{ListGroup, Put};
use mlb_base::NoMemory;
use object_cache::ObjectCache;
use pool_config::Config;
use std::alloc::Global;
use std::marker::Model;

/// What the core holds of the cluster, and what it still has to decide.
#[derive(Drop)]
pub(crate) struct CoreState {
    pub(crate) alloc: Global,
    pub(crate) class: Option<Text>,
    pub(crate) cache: ObjectCache,
    pub(crate) book: Book,
    pub(crate) queue: Keys,
    pub(crate) awaiting: AwaitingKeys,
    /// While the core is ready, the services that a release of an address would queue.
    pub(crate) waiting: WaitingKeys,
    pub(crate) out: Option<Put>,
}

impl Model for CoreState {
    ghost use Rattle.core_rules.specs.Core.{State, pools_in};
    ghost use Rattle.full_entries.specs.Entries.{AreThose};
    ghost use Rattle.ctl_core.specs.Waiting.{AreWaiting};

    ghost Value = { State };

    ghost view = { λ c. record {
      class = c.class;
      held = c.cache;
      claims = c.book.claims;
      queue = c.queue;
      awaiting = c.awaiting;
      out = c.out;
    } };

    ghost invariant = { λ c. AreWaiting c.class c.cache c.queue c.awaiting c.waiting × AreThose (pools_in c.cache.config) c.book.entries };
}

impl CoreState {
    /// A core that holds nothing. It handles the services of the class (`spec.loadBalancerClass`),
    /// and with none those that name none.
    pub(crate) fn new(alloc: Global, class: Option<Text>) -> Result<CoreState, NoMemory>
        ensures { IfOk result (λ core. core ≡ fresh class) }
    {
        Ok(CoreState {
            alloc,
            class,
            cache: ObjectCache::new(alloc),
            book: Book::new(alloc),
            queue: Keys::new(alloc),
            awaiting: AwaitingKeys::new(alloc),
            waiting: WaitingKeys::new(alloc),
            out: None,
        })
    }
}

/// Whether the lists of the configuration and of the services have ended, and a configuration is in
/// force.
pub(crate) fn is_ready(cache: &ObjectCache) -> bool
    ensures { result ≡ is_ready cache.now }
{
    cache.has_ended(ListGroup::Config)
        && cache.has_ended(ListGroup::Service)
        && cache.config().is_some()
}

/// The configuration in force, or this one, which has no pools.
pub(crate) fn config_or<'a>(cache: &'a ObjectCache, none: &'a Config) -> &'a Config
    requires { none.now.pools ≡ [] }
    ensures { result.now.pools ≡ pools_in cache.now.config }
{
    match cache.config() {
        None => none,
        Some(config) => config,
    }
}
