//! What holds of the prefixes of addresses.
ghost use Rattle.prefix_laws.specs.Prefixes.{MaskedIsTheOnePrefix, PrefixesHoldWhatBeginsSo};

/// A prefix holds just the addresses that begin with its bits (RFC 4632, section 3.1; RFC 4291,
/// section 2.3).
pub fn prefixes_hold_what_begins_so()
    ensures { PrefixesHoldWhatBeginsSo }
{}

/// An address masked to a length is a prefix of this length that holds it, and there is no other:
/// of IPv4 from 0 to 32, of IPv6 to 128.
pub fn masked_is_the_one_prefix()
    ensures { MaskedIsTheOnePrefix }
{}
