//! What holds of the messages between any two tables.
ghost use Rattle.bgp_mp.specs.Laws.{MessagesMakeTables, PlainMessages};

/// The messages between two tables of a peer make the new one of the old one: so it is read of
/// their joined octets. Every prefix in a message has a route that differs between the tables, each
/// stands in one message, once, and no message has more than 4,096 octets. Where no route is of
/// IPv6 or has a large community, the messages are those of RFC 4271 and RFC 1997 alone.
pub fn messages_make_tables()
    ensures made { MessagesMakeTables }
    ensures plain { PlainMessages }
{}
