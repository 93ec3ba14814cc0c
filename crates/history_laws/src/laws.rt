//! What is said of every world that explains a run isn't said of nothing.
ghost use Rattle.history_laws.specs.Further.{FurtherAreExplained, FurtherAreSeen};
ghost use Rattle.history_laws.specs.Histories.{HistoriesAreExplained};
ghost use Rattle.history_laws.specs.Seen.{HistoriesAreSeen};

/// Each of the histories is a run of a core, and its world explains it.
pub fn histories_are_explained()
    ensures { HistoriesAreExplained }
{}

/// And each is seen in a world without a core: what was edited, read and written comes to it.
pub fn histories_are_seen()
    ensures { HistoriesAreSeen }
{}

/// So it is with histories that are less common: a service, a deletion and a list's end that come
/// more than once in a row, an address given back to a service that waits, two puts that land late
/// in the other order, a port that is changed, a configuration that is listed anew, and an address
/// that is shared.
pub fn further_histories()
    ensures explained { FurtherAreExplained }
    ensures seen { FurtherAreSeen }
{}
