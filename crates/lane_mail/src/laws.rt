//! What holds of the lists of two lanes.
ghost use Rattle.lane_mail.specs.Laws.{LanesAreMerged, MergesAreSplit};

/// Whatever has a lane: a list is a merge of its elements of the first lane and its elements of the
/// second.
pub fn lanes_are_merged<T>()
    ensures { LanesAreMerged T }
{}

/// The other way round: of a merge of two lists, each of one lane, the elements of a lane are its
/// list.
pub fn merges_are_split<T>()
    ensures { MergesAreSplit T }
{}
