//! What holds of every run.
ghost use Rattle.core_rules.specs.Run.{HoldsWhatWasObserved, ClaimsAreByMark, ClaimsAreShown};

/// Whatever arrives, the core holds what observed, so that what is shown of it is what a look back
/// shows.
pub fn core_holds_what_was_observed()
    ensures { HoldsWhatWasObserved }
{}

/// Whatever arrives, each key has the claims that the look back shows, and where a record is
/// marked, it is claimed under the terms of its mark.
pub fn claims_are_shown()
    ensures shown { ClaimsAreShown }
    ensures by_mark { ClaimsAreByMark }
{}
