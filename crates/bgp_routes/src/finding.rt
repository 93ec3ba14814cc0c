//! Peers, found by name.
ghost use Rattle.std.specs.Prelude.{◌≡◌, true, false, map};
ghost use Rattle.std.specs.List.{find};
ghost use Rattle.std.specs.List.Sorted.{IsPartitionPoint};
ghost use Rattle.std.specs.Option.{option_copied};
ghost use Rattle.pool_config.specs.ConfigValue.{Ascend};
ghost use Rattle.bgp_routes.specs.KeptConfig.{is_before, is_kept_of};

use crate::kept_config::KeptPeer;
use pool_config::CompiledPeer;

/// The peer of this one's name and AS numbers, found by binary search, since names ascend.
pub(crate) fn peer_among<'a>(peers: &'a [KeptPeer], peer: &CompiledPeer) -> Option<&'a KeptPeer>
    requires { Ascend (map (λ held. held.name) peers.now) }
    ensures { option_copied result ≡ find (is_kept_of peer.now) peers.now }
{
    let there = peers.get(count_before(peers, peer))?;
    if there.is_of(peer) { Some(there) } else { None }
}

/// How many peers have names before this one's.
fn count_before(peers: &[KeptPeer], peer: &CompiledPeer) -> usize
    requires { Ascend (map (λ held. held.name) peers.now) }
    ensures { IsPartitionPoint (λ held. is_before peer.now held ≡ true)
        (λ held. is_before peer.now held ≡ false) peers.now result }
{
    peers.partition_point(|held| held.is_before(peer))
}
