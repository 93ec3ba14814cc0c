//! What holds of every line that is written.
ghost use Rattle.kube_lines.specs.Apart.{LinesAreRead};

/// Each line that a speaker writes is one line, and reads as an object of the texts that it says.
pub fn lines_are_read()
    ensures { LinesAreRead }
{}
