//! What holds of every cluster.
ghost use Rattle.fence_rules.specs.Among.{RunsAreSafeAmongOthers};
ghost use Rattle.fence_rules.specs.Cluster.{ClustersAreSafe};
ghost use Rattle.fence_rules.specs.Fenced.{HappeningsKeepFenced};
ghost use Rattle.fence_rules.specs.Going.{LeasesAreTakenOver, PutsAreMade};
ghost use Rattle.fence_rules.specs.Histories.{NamingsMayBeLost, PutsMayBeHeldBack, PutsMayBeOwed};
ghost use Rattle.fence_rules.specs.Histories.{PutsMayBeResent};
ghost use Rattle.fence_rules.specs.Refused.{WrongStepsAreRefused};

/// However many controllers there are, whenever each is paused, cut off or killed, and whatever
/// they asked for is carried out late, again or never: at no moment are two services recorded with
/// one address and with marked records, unless the terms of their marks may share it.
pub fn clusters_are_safe()
    ensures safe { ClustersAreSafe }
    ensures keeps { HappeningsKeepFenced }
{}

/// Whatever history of a cluster explains the run of a core as that of one bridge's program: the
/// program is that core, its puts are those of the run, and the store is safe throughout.
pub fn runs_are_safe_among_others()
    ensures { RunsAreSafeAmongOthers }
{}

/// So that this isn't said of nothing: who holds the Lease can make the put that its program wants,
/// and the Lease can be taken over.
pub fn clusters_go_on()
    ensures puts { PutsAreMade }
    ensures takes { LeasesAreTakenOver }
{}

/// Nor only of requests that come in time: a put may be held back while another takes the Lease
/// over, be delivered twice, and a request that it be named be lost to another. One that can't be
/// fenced may be answered `unknown` all the same: others are made, it is carried out after all, and
/// then the services are listed anew.
pub fn late_requests_are_admitted()
    ensures held_back { PutsMayBeHeldBack }
    ensures resent { PutsMayBeResent }
    ensures lost { NamingsMayBeLost }
    ensures owed { PutsMayBeOwed }
{}

/// Each step that leads to two services with one address, where it is let through, is refused at
/// every moment of every cluster.
pub fn wrong_steps_are_refused()
    ensures { WrongStepsAreRefused }
{}
