//! The replies to what was written.
ghost use Rattle.std.specs.Prelude.{◌≡◌, true, false, OnOk, IfErr, IfSome, IfNone};
ghost use Rattle.lane_run.specs.Outside.{outside, source_state};
ghost use Rattle.lane_drive.specs.Asking.{AwaitsMore};
ghost use Rattle.lane_drive.specs.Hearing.{Hears, StopsHearing, EndsHearing, GoesBehind};
ghost use Rattle.line_run.specs.Answered.{MayBeAsked};
ghost use Rattle.mlb_edge.specs.InputLines.{HoldsLine};

use crate::lane_machine::LaneMachine;
use crate::replies::Replies;
use kube_model::Status;
use line_run::{PacedSource, next_step};
use mlb_edge::{LineReader, Sink};
use std::alloc::Global;

/// Hears a reply, and the replies to what comes of it, until none is awaited. `Err` is the status
/// that the run stops with.
pub(crate) fn hear_replies<M: LaneMachine, I: PacedSource<K>, K: Sink>(
    alloc: Global,
    replies: &mut Replies<M>,
    reader: &mut LineReader,
    input: &mut I,
    out: &mut K,
) -> Result<(), Status>
    requires live { MayBeAsked I.name I.may_read input.old
        (λ i r o. AwaitsMore M.rules (M.state replies.old.machine)
        (outside reader.old (source_state (I.left input.old) (I.name input.old) (I.faults input.old))
        (K.written out.old) (K.faults out.old))
        (outside r (source_state (I.left i) (I.name i) (I.faults i)) (K.written o) (K.faults o))) }
    ensures name { I.name input.new ≡ I.name input.old }
    ensures quiet { M.rules.waits (M.state replies.old.machine) ≡ false
        → replies.new ≡ replies.old }
    ensures ok { OnOk result (Hears M.rules (M.state replies.old.machine)
        (M.state replies.new.machine)
        (outside reader.old (source_state (I.left input.old) (I.name input.old) (I.faults input.old))
        (K.written out.old) (K.faults out.old))
        (outside reader.new (source_state (I.left input.new) (I.name input.new) (I.faults input.new))
        (K.written out.new) (K.faults out.new))) }
    ensures err { IfErr result (λ status. StopsHearing M.rules (M.state replies.old.machine) status
        (outside reader.old (source_state (I.left input.old) (I.name input.old) (I.faults input.old))
        (K.written out.old) (K.faults out.old))
        (outside reader.new (source_state (I.left input.new) (I.name input.new) (I.faults input.new))
        (K.written out.new) (K.faults out.new))) }
{
    'replies: while replies.machine.waits() {
        if let Some(status) = next_step(alloc, reader, replies, input, out) {
            return Err(status);
        }
    }
    Ok(())
}

/// Sees that the input is at its end after the last reply, if there are replies. `Some` is the
/// status that the run stops with where it isn't.
pub(crate) fn look_behind<M: LaneMachine, I: PacedSource<K>, K: Sink>(
    alloc: Global,
    replies: &mut Replies<M>,
    reader: &mut LineReader,
    input: &mut I,
    out: &mut K,
) -> Option<Status>
    requires quiet { M.rules.waits (M.state replies.old.machine) ≡ false }
    requires paced { M.rules.hears ≡ true → (HoldsLine reader.old → ⊥)
        → I.may_read input.old reader.old out.old }
    ensures unheard { M.rules.hears ≡ false → replies.new ≡ replies.old }
    ensures none { IfNone result (EndsHearing M.rules
        (outside reader.old (source_state (I.left input.old) (I.name input.old) (I.faults input.old))
        (K.written out.old) (K.faults out.old))
        (outside reader.new (source_state (I.left input.new) (I.name input.new) (I.faults input.new))
        (K.written out.new) (K.faults out.new))) }
    ensures some { IfSome result (λ status. GoesBehind M.rules (M.state replies.old.machine) status
        (outside reader.old (source_state (I.left input.old) (I.name input.old) (I.faults input.old))
        (K.written out.old) (K.faults out.old))
        (outside reader.new (source_state (I.left input.new) (I.name input.new) (I.faults input.new))
        (K.written out.new) (K.faults out.new))) }
{
    if !M::hears() {
        return None;
    }
    let Some(status) = next_step(alloc, reader, replies, input, out) else {
        return None;
    };
    if status.is_done() {
        drop(status);
        return None;
    }
    Some(status)
}
