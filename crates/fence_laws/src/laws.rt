//! What holds of every fence.
ghost use Rattle.fence_laws.specs.Going.{FencesGoOn, PutsGoOn};
ghost use Rattle.fence_laws.specs.HeldBack.{GoneAreHeldBack};
ghost use Rattle.fence_laws.specs.Runs.{FenceFollows, FencesAreSafe};

/// Wherever a fence stands for a bridge of a cluster, and what it is told is so, all that it does
/// may happen there: its requests for the Lease and its puts are those that any number of
/// controllers may make, and so are its replies. It stands for the bridge again.
pub fn fence_follows()
    ensures { FenceFollows }
{}

/// Whatever comes to bridges that are fences, each of a name of its own, in any order, and however
/// late what they asked for is carried out: at no moment are two services recorded with one address
/// and with marked records, unless the terms of their marks may share it.
pub fn fences_are_safe()
    ensures { FencesAreSafe }
{}

/// So that this isn't said of nothing: a fence takes the Lease over from another, lists the
/// services, and its program is started; the put that it wants is named, sent and carried out.
pub fn fences_go_on()
    ensures takes { FencesGoOn }
    ensures puts { PutsGoOn }
{}

/// Once a put was seen to be gone, of which its program hears `unknown`, each put of its service at
/// its version or before is answered `stale` at once, wherever one may come, and nothing is sent.
pub fn gone_puts_are_held_back()
    ensures { GoneAreHeldBack }
{}
