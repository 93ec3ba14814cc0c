//! What holds of all words.
ghost use Rattle.controller_words.specs.Words.{RunsAreSaid, TrialsAreSaid, LanesAreSaid};

/// Words ask for a run exactly where there are none, or where they are the option of a class alone.
pub fn runs_are_said()
    ensures { RunsAreSaid }
{}

/// Words ask for a trial exactly where they are the option of its seed and that of its steps, in
/// either order.
pub fn trials_are_said()
    ensures { TrialsAreSaid }
{}

/// Words ask for a run over two lane files, for the services that name no class, exactly where they
/// are the options of the two files, in either order, and the files' names differ. With a class,
/// whose option may stand before, between or after them, `controller_words` alone says it.
pub fn lanes_are_said()
    ensures { LanesAreSaid }
{}
