//! What holds of every view.
ghost use Rattle.speaker_view.specs.Change.{UnchangedAddressesStay};
ghost use Rattle.speaker_view.specs.Index.{FoundByIndex, IndexCoversOn};
ghost use Rattle.speaker_view.specs.LookBack.{ViewLimitsAreExact, ViewsAreAsShown};

/// Whatever events were applied, the view holds what was last shown of each object, and its members
/// are those last told.
pub fn views_are_as_shown()
    ensures { ViewsAreAsShown }
{}

/// Whatever events were applied and not refused, the next one passes a limit exactly where more
/// objects of a kind would be held after it than may be, and the count is how many would.
pub fn view_limits_are_exact()
    ensures { ViewLimitsAreExact }
{}

/// At an address that an event doesn't list, where it doesn't change all, everything stays that
/// decides who may announce the address.
pub fn unchanged_addresses_stay()
    ensures { UnchangedAddressesStay }
{}

/// An event leaves what is held covered by an index that has the object which it shows.
pub fn index_covers_on()
    ensures { IndexCoversOn }
{}

/// By such an index the services that record an address are found, and their endpoint slices.
pub fn found_by_index()
    ensures { FoundByIndex }
{}
