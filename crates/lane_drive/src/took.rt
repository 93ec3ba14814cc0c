//! The line that tells of an item.
ghost use Rattle.std.specs.Prelude.{◌≤◌, OnOk, IfErr, IsTrue};
ghost use Rattle.kube_lines.specs.OutputLines.{is_taken, took_text};
ghost use Rattle.line_run.specs.Text.{line_of, Halts};
ghost use Rattle.mlb_edge.specs.Written.{Grows};

use kube_lines::took_line;
use kube_model::LaneName;
use line_run::{Halt, write_line};
use mlb_edge::Sink;
use std::alloc::Global;

/// Tells that the item of this number was taken from the lane. The lane isn't the input.
pub fn write_took<K: Sink>(
    alloc: Global,
    out: &mut K,
    lane: LaneName,
    number: u64,
) -> Result<(), Halt>
    requires { IsTrue (is_taken lane) }
    ensures ok { OnOk result (Grows (K.written out.old) (K.written out.new)
        (line_of (took_text lane number))) }
    ensures err { IfErr result (λ halt. Halts halt (line_of (took_text lane number))
        (K.written out.old) (K.written out.new) (K.faults out.old) (K.faults out.new)) }
    ensures later { K.faults out.old ≤ K.faults out.new }
{
    let Ok(text) = took_line(alloc, lane, number) else {
        return Err(Halt::NoMemory);
    };
    write_line(out, text)
}
