//! What holds of the octets of frames.
ghost use Rattle.frame_laws.specs.Sums.{ChecksumsArePlainSums, FramesAreSummed};
ghost use Rattle.frame_laws.specs.Valid.{AnswersAreValid, UnsolicitedAreValid};
ghost use Rattle.frame_laws.specs.Vectors.{AdvertisedUnasked, AnsweredArp, AnsweredSolicitation};
ghost use Rattle.frame_laws.specs.Vectors.{AnsweredUnspecified, ToldUnasked};

/// The frames for these addresses are those that were written out by hand: the ARP reply and the
/// neighbor advertisement, asked for and not, to a solicitation with a source address and without.
pub fn frames_are_those_written_out()
    ensures answered_arp { AnsweredArp }
    ensures told_unasked { ToldUnasked }
    ensures answered_unspecified { AnsweredUnspecified }
    ensures answered_solicitation { AnsweredSolicitation }
    ensures advertised_unasked { AdvertisedUnasked }
{}

/// The ones' complement sum of octets is ffff exactly where the plain sum of their 16-bit numbers
/// is a multiple of 65,535 and not 0 (RFC 1071, section 1), and the checksum of a frame is right
/// exactly where that sum over its pseudo header (RFC 8200, section 8.1) and its message is.
pub fn checksums_are_plain_sums()
    ensures sums { ChecksumsArePlainSums }
    ensures frames { FramesAreSummed }
{}

/// A receiver takes each neighbor advertisement that is sent for an address which is no multicast
/// address: by the places of its octets it meets RFC 4861, section 7.1.2. Of an answer that holds
/// where the solicitation's source is no multicast address either.
pub fn advertisements_are_valid()
    ensures answers { AnswersAreValid }
    ensures unsolicited { UnsolicitedAreValid }
{}
