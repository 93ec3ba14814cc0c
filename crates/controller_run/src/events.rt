//! One event that arrives: it is taken, and what comes of it is told.
ghost use Rattle.std.specs.Prelude.{◌≡◌, ◌≤◌, ◌++◌, OnOk, IfOk, IfErr, None};
ghost use Rattle.core_drive.specs.Drive.{turns_from};
ghost use Rattle.line_run.specs.Text.{Halts};
ghost use Rattle.controller_run.specs.Output.{output_of};
ghost use Rattle.controller_run.specs.Stream.{arrival, Enters, IsUntaken};
ghost use Rattle.mlb_edge.specs.Written.{Grows};
ghost use Rattle.program_lines.specs.Lines.{note_text};

use crate::turns::make_turns;
use core_rules::TakeFault;
use ctl_core::Core;
use kube_model::{Event, Status, What};
use line_run::{Halt, Refusal};
use mlb_edge::Sink;
use object_cache::TakeNote;
use program_lines::write_note;
use std::alloc::Global;

/// Takes the event. What is noted of it, or why it isn't taken.
pub(crate) fn take_event(core: &mut Core, event: Event) -> Result<TakeNote, Refusal>
    requires { core.old.out ≡ None }
    ensures ok { IfOk result (λ note. Enters (arrival core.old event) note core.new) }
    ensures out { OnOk result (core.new.out ≡ None) }
    ensures err { IfErr result (λ refusal. IsUntaken refusal (arrival core.old event)) }
{
    match core.take(event) {
        Ok(note) => Ok(note),
        Err(TakeFault::NoMemory) => Err(Refusal::Halted {
            halt: Halt::NoMemory,
        }),
        Err(TakeFault::Limit { count }) => Err(Refusal::Stopped {
            status: Status::Limit {
                what: What::Services,
                count,
            },
        }),
    }
}

/// Tells what is noted of what was taken, and makes the turns that follow.
pub(crate) fn tell<K: Sink>(
    alloc: Global,
    core: &mut Core,
    note: &TakeNote,
    out: &mut K,
) -> Result<(), Halt>
    requires { core.old.out ≡ None }
    ensures core { OnOk result (core.new ≡ (turns_from core.old).core) }
    ensures ok { OnOk result (Grows (K.written out.old) (K.written out.new)
        (note_text note.now ++ output_of (turns_from core.old).entries)) }
    ensures err { IfErr result (λ halt. Halts halt
        (note_text note.now ++ output_of (turns_from core.old).entries)
        (K.written out.old) (K.written out.new) (K.faults out.old) (K.faults out.new)) }
    ensures later { K.faults out.old ≤ K.faults out.new }
{
    write_note(alloc, out, note)?;
    make_turns(alloc, core, out)
}
