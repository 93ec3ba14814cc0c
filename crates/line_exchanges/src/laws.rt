//! What the lines of puts say.
ghost use Rattle.line_exchanges.specs.Puts.{PutLinesSayOne};

/// The line of a put is one line, and says which put it is.
pub fn put_lines_say_one()
    ensures { PutLinesSayOne }
{}
