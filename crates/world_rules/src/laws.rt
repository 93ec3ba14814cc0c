//! What holds of every world.
ghost use Rattle.world_rules.specs.Chain.{ChainsAreSafe};
ghost use Rattle.world_rules.specs.Clash.{SafeWithoutClash};
ghost use Rattle.world_rules.specs.Expected.{LateAreExpected};
ghost use Rattle.world_rules.specs.Explaining.{RunsAreSafeInWorlds, WorldsExplainThemselves};
ghost use Rattle.world_rules.specs.Laws.{NewStoresAreGood, OwnEndsOnce, RecordsAreGood};
ghost use Rattle.world_rules.specs.Laws.{StartsAreGood, StartsAreOwn, StepsAreMoves};
ghost use Rattle.world_rules.specs.Laws.{StepsKeepGood, StepsKeepOwn, StoresHaveTerms};
ghost use Rattle.world_rules.specs.Laws.{UnmarkedStay, WorldsAreInOrder, WorldsAreSafe};
ghost use Rattle.world_rules.specs.Outside.{SeenAreExplained, SeenAreSafe};

/// Whatever is edited, shown, put, lost and answered, and whenever the controller stops, is started
/// again, or a watch expires: at no moment are two services recorded with one address and with
/// marked records, unless the terms of their marks may share it. So it is too where the services
/// began with records of their own, of which nothing is asked but this. Only such records are
/// unmarked.
pub fn worlds_are_safe()
    ensures safe { WorldsAreSafe }
    ensures starts { StartsAreGood }
    ensures new_stores { NewStoresAreGood }
    ensures records { RecordsAreGood }
    ensures steps { StepsKeepGood }
    ensures unmarked { UnmarkedStay }
{}

/// Each step of a world is one of those: a move, of which there are more. What holds of its lane of
/// the configuration besides is kept.
pub fn steps_are_moves()
    ensures starts { StartsAreOwn }
    ensures terms { StoresHaveTerms }
    ensures moves { StepsAreMoves }
    ensures own { StepsKeepOwn }
    ensures ends { OwnEndsOnce }
{}

/// Each put that was given up, where it would be stored if it came now, is of the version that the
/// core holds, its record is claimed, and it may stand beside whatever is stored and beside each
/// other such put.
pub fn late_puts_are_expected()
    ensures { LateAreExpected }
{}

/// While the controller is up, what is stored, held, claimed and still to be shown fits together,
/// row by row.
pub fn worlds_are_in_order()
    ensures { WorldsAreInOrder }
{}

/// Every run of a core is safe in every world that explains it: the world's core and its puts are
/// those of the run, and services that are recorded with one address share it, also where a last
/// put, which has no reply yet, reaches the store.
pub fn runs_are_safe_in_worlds()
    ensures { RunsAreSafeInWorlds }
{}

/// A world explains the run of its own controller, whatever moves were made while it ran.
pub fn worlds_explain_themselves()
    ensures { WorldsExplainThemselves }
{}

/// Runs one after the other are safe throughout, each in the store that the one before left, with
/// other words maybe: whatever was edited between them, and whether the last put of each reached
/// the store, was lost, or landed before the next one was started.
pub fn chains_are_safe()
    ensures { ChainsAreSafe }
{}

/// A run that is seen in a world without a core, by what is stored, edited, written and read alone,
/// is explained by one with a core, which comes to the same store. So that store is safe.
pub fn seen_are_explained()
    ensures explained { SeenAreExplained }
    ensures safe { SeenAreSafe }
{}

/// A store is safe exactly where no two services are recorded with one address and with marks whose
/// terms may not share it.
pub fn safe_without_clash()
    ensures { SafeWithoutClash }
{}
