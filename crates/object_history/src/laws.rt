//! What holds of every history.
ghost use Rattle.object_history.specs.AsShown.{AllIsAsShown, AllVersionsAreShown};

/// Whatever was observed, what is held of each key of each kind is what was last shown of it, the
/// lists that have ended are those whose end no expired watch followed, and the configuration in
/// force is the one that was last accepted.
pub fn holds_what_was_shown()
    ensures { AllIsAsShown }
{}

/// Whatever was observed, each key of each kind is held at the version last shown of it, and counts
/// as held at version 0 where it isn't held.
pub fn versions_are_last_shown()
    ensures { AllVersionsAreShown }
{}
