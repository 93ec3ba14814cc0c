//! Runs one after the other are safe.
ghost use Rattle.run_laws.specs.Runs.{ChainedRunsAreSafe};

/// Runs one after the other, each with words and input of its own, over one stream or over two
/// lanes, in the store that the one before left, with edits between, and with the last put of each
/// landed, lost, or landing before the next one is started: at no moment are two services with
/// marks recorded with one address, unless the terms of their marks may share it.
pub fn chained_runs_are_safe()
    ensures { ChainedRunsAreSafe }
{}
