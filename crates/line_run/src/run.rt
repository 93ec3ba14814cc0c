//! The run over the lines of a source.
ghost use Rattle.std.specs.Prelude.{◌≡◌, []};
ghost use Rattle.line_run.specs.Clauses.{CanEnd, AtReadFault, AtWriteFault, RunOwes};
ghost use Rattle.line_run.specs.Explains.{Explains};
ghost use Rattle.line_run.specs.RunOutput.{WritesOnly};
ghost use Rattle.line_run.specs.Answered.{IsAnswered, MayBeAsked};

use crate::machine::Machine;
use crate::paced::PacedSource;
use crate::step::next_step;
use kube_model::Status;
use mlb_edge::{LineReader, Sink};
use std::alloc::Global;

/// Drives the machine by the lines of the input until something ends the run.
fn drive_lines<M: Machine, S: PacedSource<K>, K: Sink>(
    alloc: Global,
    reader: &mut LineReader,
    machine: &mut M,
    input: &mut S,
    out: &mut K,
) -> Status
    requires fresh { reader.old ≡ record { held = []; passed = 0; number = 0 } }
    requires live { MayBeAsked S.name S.may_read input.old
        (λ i r o. IsAnswered M.rules (M.state machine.old) (S.left input.old) r (S.left i)
        (K.written out.old) (K.written o)) }
    ensures explains { Explains M.rules M.cause (M.state machine.old) result
        (S.left input.old) (S.left input.new) (K.written out.old) (K.written out.new)
        (S.faults input.old) (S.faults input.new) (K.faults out.old) (K.faults out.new) }
    ensures only { WritesOnly M.rules (M.state machine.old)
        (S.left input.old) (K.written out.old) (K.written out.new) }
{
    'lines: loop {
        if let Some(status) = next_step(alloc, reader, machine, input, out) {
            return status;
        }
    }
}

/// The run with a reader of its own.
fn run_lines<M: Machine, S: PacedSource<K>, K: Sink>(
    alloc: Global,
    machine: &mut M,
    input: &mut S,
    out: &mut K,
) -> Status
    requires live { MayBeAsked S.name S.may_read input.old
        (λ i r o. IsAnswered M.rules (M.state machine.old) (S.left input.old) r (S.left i)
        (K.written out.old) (K.written o)) }
    ensures explains { Explains M.rules M.cause (M.state machine.old) result
        (S.left input.old) (S.left input.new) (K.written out.old) (K.written out.new)
        (S.faults input.old) (S.faults input.new) (K.faults out.old) (K.faults out.new) }
    ensures only { WritesOnly M.rules (M.state machine.old)
        (S.left input.old) (K.written out.old) (K.written out.new) }
{
    let Ok(mut reader) = LineReader::new(alloc) else {
        return Status::NoMemory;
    };
    drive_lines(alloc, &mut reader, machine, input, out)
}

/// Drives the machine by the lines of the input, one after the other, until the input is at its end
/// or something stops it. The source may be one that may be asked for more only at times: it is
/// asked where all that came whole was answered, so no output is held back while more is read.
pub fn run_machine<M: Machine, S: PacedSource<K>, K: Sink>(
    alloc: Global,
    machine: &mut M,
    input: &mut S,
    out: &mut K,
) -> Status
    // Whenever all that came whole was answered, the source may be asked for more. Nothing else is
    // known of when it may, so at each call that may ask it all that came whole was answered.
    requires live { MayBeAsked S.name S.may_read input.old
        (λ i r o. IsAnswered M.rules (M.state machine.old) (S.left input.old) r (S.left i)
        (K.written out.old) (K.written o)) }

    // No status but those of the machine and of any run.
    ensures can_end { CanEnd M.cause result }

    // A fault comes only where its count rose.
    ensures read_fault { AtReadFault result (S.faults input.old) (S.faults input.new) }
    ensures write_fault { AtWriteFault result (K.faults out.old) (K.faults out.new) }

    // What was read and written, whatever the status.
    ensures run { RunOwes M.rules M.cause (M.state machine.old) result
        (S.left input.old) (S.left input.new) (K.written out.old) (K.written out.new) }
{
    run_lines(alloc, machine, input, out)
}
