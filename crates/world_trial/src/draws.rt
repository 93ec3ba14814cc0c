//! The numbers that are drawn (SplitMix64).
ghost use Rattle.std.specs.Prelude.{◌≡◌, ◌<◌};
ghost use Rattle.world_trial.specs.Draws.{drawn, mixed, next_state};

fn mixed(places: u32, factor: u64, z: u64) -> u64
    requires { places < 64 }
    ensures { result ≡ mixed places factor z }
{
    (z ^ (z >> places)).wrapping_mul(factor)
}

/// What is drawn in the state, which becomes the next.
#[tactic(auto, unfolding(crate::specs::Draws::drawn))]
pub(crate) fn draw(state: &mut u64) -> u64
    ensures drawn { result ≡ drawn state.old }
    ensures next { state.new ≡ next_state state.old }
{
    *state = state.wrapping_add(0x9E37_79B9_7F4A_7C15);
    let z = mixed(30, 0xBF58_476D_1CE4_E5B9, *state);
    let z = mixed(27, 0x94D0_49BB_1331_11EB, z);
    z ^ (z >> 31)
}
