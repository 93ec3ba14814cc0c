//! What becomes of a world in which nobody edits any more.
ghost use Rattle.settling_laws.specs.Clear.{MovesKeepClear, StartsAreClear};
ghost use Rattle.settling_laws.specs.Configured.{StartsHaveConfigCopies, StepsKeepConfigCopies};
ghost use Rattle.settling_laws.specs.Copies.{MovesKeepCopies, StartsHaveCopies};
ghost use Rattle.settling_laws.specs.Explained.{RunsSettleWorlds};
ghost use Rattle.settling_laws.specs.Settling.{ControllersConfigure, ControllersSettle};
ghost use Rattle.settling_laws.specs.Settling.{RestIsConfigured, RestIsSettled, StartsSettle};
ghost use Rattle.settling_laws.specs.Settling.{StepsEnd};
ghost use Rattle.settling_laws.specs.Staying.{AddressesStay, LeftStay, PutsAreLeft};
ghost use Rattle.settling_laws.specs.Staying.{RunsKeepAddresses};

/// Where nobody edits and each put is delivered, a controller takes and puts no more often than is
/// said beforehand of what is pending, queued and held.
pub fn steps_end()
    ensures { StepsEnd }
{}

/// Where nothing is left to be taken or put, what is stored is held, and each stored service that
/// awaits nothing has the record that is chosen for it; where none could be chosen, none can be
/// now. Where what is held and pending of the configuration leads to what is stored of it, that is
/// so by the stored configuration.
pub fn rest_is_settled()
    ensures settled { RestIsSettled }
    ensures configured { RestIsConfigured }
{}

/// Whatever is edited, shown, put, lost and answered: at the version at which a service is stored,
/// what a controller holds of it and what is pending of it is what is stored.
pub fn worlds_have_copies()
    ensures starts { StartsHaveCopies }
    ensures moves { MovesKeepCopies }
{}

/// Whatever is edited, taken, put, lost and answered, and whenever the controller stops, is started
/// again, or a watch expires: all that it holds of each kind of the configuration, and is still
/// going to be shown of it, leads to what is stored, key by key and at its version.
pub fn worlds_have_config_copies()
    ensures starts { StartsHaveConfigCopies }
    ensures steps { StepsKeepConfigCopies }
{}

/// Where no service awaits anything that it is held as, nobody edits and each put is delivered,
/// whatever is taken and put and in whatever order: once nothing is left to be taken or put, each
/// stored service has what is chosen for it by what is stored, and where none could be chosen, none
/// can be now. So it is where a controller was just started over a store. What is stored of the
/// configuration counts, where what is held and pending of that leads to it.
pub fn controllers_settle()
    ensures settle { ControllersSettle }
    ensures configure { ControllersConfigure }
    ensures starts { StartsSettle }
{}

/// No service awaits anything that it is held as where a controller was just started, or the watch
/// of its services has just expired; and so it stays, whatever is edited, shown, put, lost and
/// answered, until a put is refused for good.
pub fn only_refusals_leave_awaiting()
    ensures starts { StartsAreClear }
    ensures moves { MovesKeepClear }
{}

/// Addresses that are put for a service are left to it: whoever else has one of them, or may have
/// it, shares it. So it stays, as long as the service has them and the cluster shows no other
/// service with one of them; and while it could keep them, no put changes them. So along every run:
/// as long as the service, the labels of its namespace and the configuration are as they were
/// shown, an address stays.
pub fn what_is_left_stays()
    ensures puts { PutsAreLeft }
    ensures stay { LeftStay }
    ensures kept { AddressesStay }
    ensures along { RunsKeepAddresses }
{}

/// A run of a core, in every world that explains it: whatever of the configuration is pending, the
/// controller takes and puts no more often than is said beforehand; and wherever nothing is left of
/// that, or the core is ready, nothing is queued and nothing of the services is still to be shown,
/// each stored service has what is chosen for it by what is stored, and where none could be chosen,
/// none can be now; unless, since the services were last listed, a put was refused for good. It is
/// so by the stored configuration, where what was last shown of that is what is stored.
pub fn runs_settle_worlds()
    ensures { RunsSettleWorlds }
{}
