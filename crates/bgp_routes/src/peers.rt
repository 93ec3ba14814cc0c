//! The peers of a view.
ghost use Rattle.std.specs.Prelude.{◌≡◌, map};
ghost use Rattle.pool_config.specs.ConfigValue.{Ascend};
ghost use Rattle.bgp_routes.specs.Peers.{peers_of};

use pool_config::CompiledPeer;
use speaker_view::View;

/// The peers of the configuration in force, by ascending name.
pub fn peers_of(view: &View) -> &[CompiledPeer]
    ensures peers { result.now ≡ peers_of view.now }
    ensures names { Ascend (map (λ peer. peer.name) (peers_of view.now)) }
{
    match view.config() {
        None => &[],
        Some(config) => config.peers.as_slice(),
    }
}
