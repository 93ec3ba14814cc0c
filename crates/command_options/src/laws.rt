//! What holds of all words.
ghost use Rattle.command_options.specs.Options.{OptionsAreRead};

/// Words are read as options exactly where they are these options, one after the other.
pub fn options_are_read()
    ensures { OptionsAreRead }
{}
