//! Which services a pool serves.
ghost use Rattle.std.specs.Prelude.{◌≡◌, ◌↔◌, IsTrue};
ghost use Rattle.kube_labels.specs.Names.{has_text};
ghost use Rattle.pool_choice.specs.Serving.{Serves, namespace_passes, service_passes, serves};

use kube_labels::{Labels, Text, any_matches};
use kube_model::Service;
use pool_config::{CompiledAllocation, CompiledPool};

fn is_listed(names: &[Text], name: &Text) -> bool
    ensures { result ≡ has_text names.now name.now }
{
    names.iter().any(|n| *n == *name)
}

fn namespace_passes(allocation: &CompiledAllocation, name: &Text, labels: &Labels) -> bool
    ensures { result ≡ namespace_passes allocation.now name.now labels.now }
{
    (allocation.namespaces.as_slice().is_empty()
        && allocation.namespace_selectors.as_slice().is_empty())
        || (is_listed(allocation.namespaces.as_slice(), name)
            || any_matches(&allocation.namespace_selectors, labels))
}

fn service_passes(allocation: &CompiledAllocation, labels: &Labels) -> bool
    ensures { result ≡ service_passes allocation.now labels.now }
{
    allocation.service_selectors.as_slice().is_empty()
        || any_matches(&allocation.service_selectors, labels)
}

fn test(pool: &CompiledPool, service: &Service, namespace: &Labels) -> bool
    ensures { result ≡ serves service.now namespace.now pool.now }
{
    match &pool.allocation {
        None => true,
        Some(allocation) => {
            namespace_passes(allocation, &service.key.namespace, namespace)
                && service_passes(allocation, &service.labels)
        }
    }
}

/// Whether the pool serves the service, whose namespace has these labels: the pool has no service
/// allocation, or the namespace and the labels of the service pass it. A part of the allocation
/// that is empty passes. It takes no memory.
pub fn serves(pool: &CompiledPool, service: &Service, namespace: &Labels) -> bool
    ensures value { result ≡ serves service.now namespace.now pool.now }
    ensures meaning { IsTrue result ↔ Serves service.now namespace.now pool.now }
{
    test(pool, service, namespace)
}
