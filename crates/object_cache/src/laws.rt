//! What holds of every history.
ghost use Rattle.object_cache.specs.Limits.{LimitsAreExact};
ghost use Rattle.object_cache.specs.Stays.{OtherServicesStay, OthersPassAsBefore};

/// Whatever was observed, an event leaves each service as it was but the one that it shows or
/// deletes, and those that its list lacks.
pub fn other_services_stay()
    ensures { OtherServicesStay }
{}

/// Whatever was observed, of the services that an event doesn't change the same pass a test as
/// before it, in the same order.
pub fn others_pass_as_before()
    ensures { OthersPassAsBefore }
{}

/// Whatever was observed and not refused, the next event passes a limit exactly where more objects
/// of a kind would be held after it than may be, and the count is how many would.
pub fn limits_are_exact()
    ensures { LimitsAreExact }
{}
