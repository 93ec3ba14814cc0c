//! What holds of the messages between any two tables.
ghost use Rattle.bgp_updates.specs.Laws.{HopsAreOfRoutes, MessagesFit, MessagesGiveTheTable};
ghost use Rattle.bgp_updates.specs.Laws.{MessagesSpell};
ghost use Rattle.bgp_updates.specs.Laws.{NamedPrefixesDiffer, PartsTellAll, PrefixesStandOnce};
ghost use Rattle.bgp_updates.specs.OneFamily.{OneFamilyAlone};

/// The messages are the octets of what they say, and after what they say the table is the new one.
pub fn messages_give_the_table()
    ensures spelled { MessagesSpell }
    ensures table { MessagesGiveTheTable }
{}

/// Every prefix in a message has a route that differs between the tables, and stands in one
/// message, once.
pub fn messages_name_what_differs()
    ensures differ { NamedPrefixesDiffer }
    ensures once { PrefixesStandOnce }
{}

/// No message has more than 4,096 octets (RFC 4271, section 4).
pub fn messages_fit()
    ensures { MessagesFit }
{}

/// Where all routes are of IPv4 and none has a large community, the messages are those of IPv4
/// alone (RFC 4271, RFC 1997).
pub fn one_family_alone()
    ensures { OneFamilyAlone }
{}

/// The IPv6 next hop is told with IPv6 routes alone.
pub fn hops_are_of_routes()
    ensures { HopsAreOfRoutes }
{}

/// Where two tables agree outside a set of prefixes, the messages between their routes inside it
/// are all messages.
pub fn parts_tell_all()
    ensures { PartsTellAll }
{}
