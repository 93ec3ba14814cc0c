//! What holds of every event that a line is read as.
ghost use Rattle.line_event_laws.specs.Numbers.{LinesShowNumbers};

/// Where a line shows an object, the recorded IPv4 addresses of a service have 32 bits, the aggregation length of an advertisement is at most
/// 32 and its preference has 32 bits, and so has the own AS number of a peer.
pub fn lines_show_numbers()
    ensures { LinesShowNumbers }
{}
