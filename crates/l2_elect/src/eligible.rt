//! Which nodes are eligible for an address.
ghost use Rattle.std.specs.Prelude.{◌≡◌};
ghost use Rattle.std.specs.List.{list_any};
ghost use Rattle.l2_elect.specs.Eligible.{advertises, is_eligible_by};

use ip_ranges::Address;
use kube_labels::Text;
use pool_config::{ChoosesPools, CompiledL2, CompiledPool, SelectsNodes};
use speaker_view::View;

/// Whether the advertisement chooses the pool and selects the node.
pub(crate) fn advertises(
    view: &View,
    node: &Text,
    pool: &CompiledPool,
    advertisement: &CompiledL2,
) -> bool
    ensures { result ≡ advertises view.now node.now pool.now advertisement.now }
{
    advertisement.chooses(pool) && advertisement.selects(view.node_labels(node))
}

/// Whether some of the advertisements chooses the pool and selects the node.
fn is_advertised(view: &View, node: &Text, pool: &CompiledPool, l2: &[CompiledL2]) -> bool
    ensures { result ≡ list_any (advertises view.now node.now pool.now) l2.now }
{
    l2.iter().any(|advertisement| advertises(view, node, pool, advertisement))
}

/// Whether the node, where it is a member, is eligible for the address, which is of the pool, by
/// the advertisements. Of the services it looks at those that record the address alone.
pub(crate) fn is_eligible(
    view: &View,
    node: &Text,
    address: &Address,
    pool: &CompiledPool,
    l2: &[CompiledL2],
) -> bool
    ensures { result ≡ is_eligible_by view.now address.now pool.now l2.now node.now }
{
    is_advertised(view, node, pool, l2) && view.is_announced_from(address, node)
}
