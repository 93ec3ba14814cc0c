//! What holds of every run.
ghost use Rattle.core_laws.specs.Certain.{NewerEventsSettle, RunsAreCertain};
ghost use Rattle.core_laws.specs.Claimed.{ServicesAreClaimed};
ghost use Rattle.core_laws.specs.Expired.{ExpiredIsBoth};
ghost use Rattle.core_laws.specs.Puts.{PutsAreRight, NoPutsAreRight, TurnsAreReady};
ghost use Rattle.core_laws.specs.Queue.{QueuesAreOrderly};
ghost use Rattle.core_laws.specs.Quiet.{RunsAreQuiet};
ghost use Rattle.core_laws.specs.QuietShown.{RunsAreQuietAsShown};
ghost use Rattle.core_laws.specs.Served.{ChosenIsServed, RowsAreServed};
ghost use Rattle.core_laws.specs.Settled.{OffersAreForServices, HeldAreServed, OthersAreBare};
ghost use Rattle.core_laws.specs.Shared.{RunsAreShared, PutsShareRightly};
ghost use Rattle.core_laws.specs.Sound.{RunsAreSound};
ghost use Rattle.core_laws.specs.Telling.{ReasonsAreRight, NotesAreRight};
ghost use Rattle.core_laws.specs.Waiting.{WaitsInVain};
ghost use Rattle.core_laws.specs.Waits.{AwaitingIsShown, TurnsAreOfFreeKeys};

/// No key is chosen for before the lists of the configuration and of the services have ended.
pub fn turns_are_of_ready_cores()
    ensures { TurnsAreReady }
{}

/// Each put is what is chosen for its service, by what the look back shows; and where a turn makes
/// no put, none is due. A put with an address is marked by the terms of its service, and whoever
/// else has, or may have, one of its addresses shares it by these.
pub fn puts_are_right()
    ensures puts { PutsAreRight }
    ensures no_puts { NoPutsAreRight }
    ensures shares { PutsShareRightly }
{}

/// Whatever arrives, each key is queued once, is held and doesn't await a newer event, and none is
/// queued while the core isn't ready.
pub fn queues_are_orderly()
    ensures { QueuesAreOrderly }
{}

/// Whatever arrives, where the watch of all lists expires, that is as if the watch of the
/// configuration's list had expired, and then that of the services' list.
pub fn expired_is_both()
    ensures { ExpiredIsBoth }
{}

/// Whatever arrives, each settled service has the record that is chosen for it, but the one that is
/// being written.
pub fn runs_are_quiet()
    ensures { RunsAreQuiet }
{}

/// Whatever arrives, the keys that await a newer event are those that the look back shows.
pub fn awaiting_is_shown()
    ensures { AwaitingIsShown }
{}

/// No key is chosen for while it awaits a newer event.
pub fn turns_are_of_free_keys()
    ensures { TurnsAreOfFreeKeys }
{}

/// Whatever record is chosen has one address of each family of some option, of one pool that serves
/// the service.
pub fn chosen_is_served()
    ensures chosen { ChosenIsServed }
    ensures rows { RowsAreServed }
{}

/// Whatever arrives, each held service with an address has a claim of its record: under the terms
/// of its mark, and where it has no mark of this controller, as MetalLB leaves it, under those of
/// the service as it is held now.
pub fn services_are_claimed()
    ensures { ServicesAreClaimed }
{}

/// Whatever arrives, each settled service has the claim of its record and no other, but the one
/// that is being written: so no reply that didn't come keeps an address from the others once
/// nothing is queued. And so it is of one that an event shows newer than it is held, which then
/// awaits nothing, whatever was put of it, lost or refused before.
pub fn runs_are_certain()
    ensures settled { RunsAreCertain }
    ensures newer { NewerEventsSettle }
{}

/// At no moment have two services, or may they have, one address, unless they share it by their
/// terms, or the one that came to it later, or came later to its terms, was shown with it so by the
/// cluster.
pub fn runs_are_shared()
    ensures { RunsAreShared }
{}

/// A handled service with an empty record is pending: its request can't be met, or no pool that it
/// may use has a usable address of each family of some option.
pub fn services_wait_in_vain()
    ensures { WaitsInVain }
{}

/// What a service has that meets its row: one that is handled and has a record has what serves it,
/// and one that isn't of type LoadBalancer has none.
pub fn settled_are_served()
    ensures offers { OffersAreForServices }
    ensures held { HeldAreServed }
    ensures others { OthersAreBare }
{}

/// Whenever nothing is queued and no put is in flight, each held service that doesn't await a newer
/// event has what is chosen for it, by what the look back shows.
pub fn runs_are_quiet_as_shown()
    ensures { RunsAreQuietAsShown }
{}

/// Each reason that is told of a service without an address is the first case of the table that
/// holds, and what is told of a configuration is right, by what the look back shows.
pub fn what_is_told_is_right()
    ensures reasons { ReasonsAreRight }
    ensures notes { NotesAreRight }
{}

/// Every run of the core is sound: at each moment what was done is right by what the look back
/// shows, whoever has, or may have, an address of a put shares it, and services that have, or may
/// have, one address share it, or the cluster showed it so.
pub fn runs_are_sound()
    ensures { RunsAreSound }
{}
