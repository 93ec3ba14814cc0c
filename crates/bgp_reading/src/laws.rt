//! What holds of reading, whatever the octets and the tables.
ghost use Rattle.bgp_reading.specs.Laws.{MessagesAreComputed, MessagesAreOfSender};
ghost use Rattle.bgp_reading.specs.Laws.{MessagesSayOneThing, TablesAreReceived};
ghost use Rattle.bgp_reading.specs.Laws.{UpdatesAreReceived};

/// The definition that computes finds exactly the messages.
pub fn messages_are_computed()
    ensures { MessagesAreComputed }
{}

/// No octets are messages that say two things.
pub fn messages_say_one_thing()
    ensures { MessagesSayOneThing }
{}

/// After the joined octets of the messages between two tables, cut by their lengths and read, the
/// old table is the new one.
pub fn updates_are_received()
    ensures { UpdatesAreReceived }
{}

/// After the joined octets of the messages from each of some tables to the next, the first table is
/// the last one. Each of the messages is one of their sender.
pub fn tables_are_received()
    ensures table { TablesAreReceived }
    ensures sender { MessagesAreOfSender }
{}
