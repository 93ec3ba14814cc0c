//! One line of a run.
ghost use Rattle.std.specs.Prelude.{◌≡◌, ◌≤◌, ◌<◌, ◌^◌, IfSome, IfNone};
ghost use Rattle.mlb_edge.specs.InputLines.{HoldsLine, Passes, to_come};
ghost use Rattle.line_run.specs.Ends.{Drives, Ends};

use crate::machine::Machine;
use crate::paced::PacedSource;
use crate::status::{status_at_end, status_of_end, status_of_refusal};
use kube_model::Status;
use mlb_edge::{LineReader, Sink};
use std::alloc::Global;

/// Reads one line and drives the machine by it, where the source may be asked for more if no whole
/// line is held.
///
/// `None` says that the line was taken: its text was written before this call returned, so nothing is held
/// back while the next line is read. `Some` is the status that the run ends with.
pub fn next_step<M: Machine, S: PacedSource<K>, K: Sink>(
    alloc: Global,
    reader: &mut LineReader,
    machine: &mut M,
    input: &mut S,
    out: &mut K,
) -> Option<Status>
    requires paced { (HoldsLine reader.old → ⊥) → S.may_read input.old reader.old out.old }

    ensures drives { IfNone result (Drives M.rules (M.state machine.old) (M.state machine.new)
        (to_come reader.old (S.left input.old)) (to_come reader.new (S.left input.new))
        (K.written out.old) (K.written out.new)) }
    ensures ends { IfSome result (λ status. Ends M.rules (M.state machine.old) status
        (to_come reader.old (S.left input.old)) (to_come reader.new (S.left input.new))
        reader.new.held (S.left input.new) (K.written out.old) (K.written out.new)
        (S.faults input.old) (S.faults input.new) (K.faults out.old) (K.faults out.new)) }

    // The source is read only where no whole line is held.
    ensures unread { HoldsLine reader.old → input.new ≡ input.old }

    // No byte is lost, each line taken brings the reader on, and no count of faults falls.
    ensures passes { Passes reader.old reader.new (S.left input.old) (S.left input.new) }
    ensures near { IfNone result
        ((reader.old.passed < reader.new.passed) × (reader.new.passed ≤ 2 ^ 40)) }
    ensures name { S.name input.new ≡ S.name input.old }
    ensures reads { S.faults input.old ≤ S.faults input.new }
    ensures writes { K.faults out.old ≤ K.faults out.new }
{
    let line = match input.next_line(reader, out) {
        Ok(Some(line)) => line,
        Ok(None) => return Some(status_at_end(machine)),
        Err(end) => return Some(status_of_end(end)),
    };
    match machine.take(alloc, line, out) {
        Ok(()) => None,
        Err(refusal) => Some(status_of_refusal(refusal)),
    }
}
