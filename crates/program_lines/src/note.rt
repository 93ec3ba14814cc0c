//! What is told of a configuration.
ghost use Rattle.std.specs.Prelude.{◌≤◌, OnOk, IfErr};
ghost use Rattle.line_run.specs.Text.{Halts};
ghost use Rattle.mlb_edge.specs.Written.{Grows};
ghost use Rattle.program_lines.specs.Lines.{note_text};

use kube_lines::{accepted_line, refused_line};
use line_run::{Halt, write_line};
use mlb_edge::Sink;
use object_cache::TakeNote;
use std::alloc::Global;

/// Tells what became of a configuration.
pub fn write_note<K: Sink>(alloc: Global, out: &mut K, note: &TakeNote) -> Result<(), Halt>
    ensures ok { OnOk result (Grows (K.written out.old) (K.written out.new) (note_text note.now)) }
    ensures err { IfErr result (λ halt. Halts halt (note_text note.now)
        (K.written out.old) (K.written out.new) (K.faults out.old) (K.faults out.new)) }
    ensures later { K.faults out.old ≤ K.faults out.new }
{
    match note {
        TakeNote::Quiet => Ok(()),
        TakeNote::Accepted => {
            let Ok(text) = accepted_line(alloc) else {
                return Err(Halt::NoMemory);
            };
            write_line(out, text)
        }
        TakeNote::Refused { fault } => {
            let Ok(text) = refused_line(alloc, fault) else {
                return Err(Halt::NoMemory);
            };
            write_line(out, text)
        }
    }
}
