//! What holds of the octets of messages.
ghost use Rattle.update_laws.specs.Laws.{MessagesAreRead};
ghost use Rattle.update_laws.specs.Vectors.{AllAttributes, InBothFamilies, InOrder, InsideTheAs};
ghost use Rattle.update_laws.specs.Vectors.{LargeChanged, ManyReached, ManyUnreached, Reached};
ghost use Rattle.update_laws.specs.Vectors.{ToAnotherAs, Unchanged, Unreached, WithCommunity};
ghost use Rattle.update_laws.specs.Vectors.{WithLarge, WithManyLarge, Withdrawn, WithoutPreference};

/// The messages between small tables are those that were written out by hand.
pub fn messages_are_those_written_out()
    ensures to_another_as { ToAnotherAs }
    ensures inside_the_as { InsideTheAs }
    ensures withdrawn { Withdrawn }
    ensures with_community { WithCommunity }
    ensures without_preference { WithoutPreference }
    ensures unchanged { Unchanged }
    ensures in_order { InOrder }
{}

/// So are those with large communities (RFC 8092), with a length of two octets where there are
/// many.
pub fn large_communities_are_those_written_out()
    ensures with_large { WithLarge }
    ensures with_many_large { WithManyLarge }
    ensures large_changed { LargeChanged }
{}

/// So are those of IPv6 routes (RFC 4760), with a length of two octets where there are many.
pub fn ipv6_messages_are_those_written_out()
    ensures reached { Reached }
    ensures unreached { Unreached }
    ensures many_reached { ManyReached }
    ensures many_unreached { ManyUnreached }
    ensures all_attributes { AllAttributes }
    ensures in_both_families { InBothFamilies }
{}

/// Each message, read in general, says what is told: its withdrawn and announced prefixes of IPv4,
/// and path attributes, ascending by type with the flags of the standards: ORIGIN with INCOMPLETE,
/// AS_PATH, NEXT_HOP of IPv4 alone, inside the AS LOCAL_PREF, COMMUNITIES where there are some,
/// MP_REACH_NLRI or MP_UNREACH_NLRI of IPv6, and LARGE_COMMUNITY where there are some.
pub fn messages_are_read()
    ensures { MessagesAreRead }
{}
