//! What holds of every drive.
ghost use Rattle.core_drive.specs.Laws.{BeginsFresh, EventsGoOn, ExpiriesGoOn, RepliesGoOn};
ghost use Rattle.core_drive.specs.Laws.{DrivesAreSound, DrivesAreQuiet, DrivesAreSettled};

/// Whatever arrives at a core that holds nothing, what is told is a run of the core, which leads to
/// its state.
pub fn what_arrives_goes_on()
    ensures begins { BeginsFresh }
    ensures events { EventsGoOn }
    ensures expiries { ExpiriesGoOn }
    ensures replies { RepliesGoOn }
{}

/// What is told of a drive is right. Where no put is in flight, nothing is left waiting that could
/// be served, and each settled service has its own: what serves it, a reason why it has no address,
/// or, where it isn't of type LoadBalancer, no record.
pub fn drives_are_sound()
    ensures sound { DrivesAreSound }
    ensures quiet { DrivesAreQuiet }
    ensures settled { DrivesAreSettled }
{}
