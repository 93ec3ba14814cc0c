//! The lines that are written.
ghost use Rattle.std.specs.Prelude.{◌≤◌, OnOk, IfErr};
ghost use Rattle.mlb_edge.specs.Written.{Grows};
ghost use Rattle.line_run.specs.Text.{Halts};
ghost use Rattle.controller_run.specs.Output.{reason_line};
ghost use Rattle.fenced_run.specs.Stream.{given_text};

use fence_lines::output_line;
use kube_lines::pending_line;
use kube_model::{Key, Reason};
use line_run::{Halt, write_line};
use mlb_edge::Sink;
use put_fence::Taken;
use std::alloc::Global;

/// Tells why a service has no address, where there is a reason.
pub(crate) fn write_reason<K: Sink>(
    alloc: Global,
    out: &mut K,
    key: &Key,
    pending: Option<Reason>,
) -> Result<(), Halt>
    ensures ok { OnOk result (Grows (K.written out.old) (K.written out.new)
        (reason_line key.now pending)) }
    ensures err { IfErr result (λ halt. Halts halt (reason_line key.now pending)
        (K.written out.old) (K.written out.new) (K.faults out.old) (K.faults out.new)) }
    ensures later { K.faults out.old ≤ K.faults out.new }
{
    let Some(reason) = pending else {
        return Ok(());
    };
    let Ok(text) = pending_line(alloc, key, reason) else {
        return Err(Halt::NoMemory);
    };
    write_line(out, text)
}

/// Writes what the fence is to do, where that is a line.
pub(crate) fn write_given<K: Sink>(alloc: Global, out: &mut K, taken: &Taken) -> Result<(), Halt>
    ensures ok { OnOk result (Grows (K.written out.old) (K.written out.new)
        (given_text taken.now)) }
    ensures err { IfErr result (λ halt. Halts halt (given_text taken.now)
        (K.written out.old) (K.written out.new) (K.faults out.old) (K.faults out.new)) }
    ensures later { K.faults out.old ≤ K.faults out.new }
{
    let Ok(found) = output_line(alloc, taken) else {
        return Err(Halt::NoMemory);
    };
    match found {
        Some(text) => write_line(out, text),
        None => Ok(()),
    }
}
