//! What the definitions come to.
ghost use Rattle.world_trial.specs.Laws.{FirstDraws};

/// What is drawn first of the seed 0.
pub fn first_draws()
    ensures { FirstDraws }
{}
