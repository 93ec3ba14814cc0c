//! The lines that are written.
ghost use Rattle.std.specs.Prelude.{◌≡◌, ◌≤◌, OnOk, IfErr};
ghost use Rattle.mlb_edge.specs.Written.{Grows};
ghost use Rattle.kube_lines.specs.OutputLines.{put_text};
ghost use Rattle.line_run.specs.Text.{line_of, Halts};
ghost use Rattle.controller_run.specs.Output.{reason_line, turn_text};

use core_rules::Turn;
use kube_lines::{pending_line, put_line};
use kube_model::{Key, Put, Reason};
use line_run::{Halt, write_line};
use mlb_edge::Sink;
use std::alloc::Global;

/// Tells why a service has no address, where there is a reason.
fn write_reason<K: Sink>(
    alloc: Global,
    out: &mut K,
    key: &Key,
    pending: Option<Reason>,
) -> Result<(), Halt>
    ensures ok { OnOk result (Grows (K.written out.old) (K.written out.new)
        (reason_line key.now pending)) }
    ensures err { IfErr result (λ halt. Halts halt (reason_line key.now pending)
        (K.written out.old) (K.written out.new) (K.faults out.old) (K.faults out.new)) }
    ensures later { K.faults out.old ≤ K.faults out.new }
{
    let Some(reason) = pending else {
        return Ok(());
    };
    let Ok(text) = pending_line(alloc, key, reason) else {
        return Err(Halt::NoMemory);
    };
    write_line(out, text)
}

fn write_put<K: Sink>(alloc: Global, out: &mut K, put: &Put) -> Result<(), Halt>
    ensures ok { OnOk result (Grows (K.written out.old) (K.written out.new)
        (line_of (put_text put.now))) }
    ensures err { IfErr result (λ halt. Halts halt (line_of (put_text put.now))
        (K.written out.old) (K.written out.new) (K.faults out.old) (K.faults out.new)) }
    ensures later { K.faults out.old ≤ K.faults out.new }
{
    let Ok(text) = put_line(alloc, put) else {
        return Err(Halt::NoMemory);
    };
    write_line(out, text)
}

/// Tells the reason of a turn, if there is one, and then its put, if one is wanted.
pub(crate) fn write_turn<K: Sink>(alloc: Global, out: &mut K, turn: &Turn) -> Result<(), Halt>
    ensures ok { OnOk result (Grows (K.written out.old) (K.written out.new) (turn_text turn.now)) }
    ensures err { IfErr result (λ halt. Halts halt (turn_text turn.now)
        (K.written out.old) (K.written out.new) (K.faults out.old) (K.faults out.new)) }
    ensures later { K.faults out.old ≤ K.faults out.new }
{
    match turn {
        Turn::Idle => Ok(()),
        Turn::NoPut { key, pending } => write_reason(alloc, out, key, *pending),
        Turn::Wants { put, pending } => {
            write_reason(alloc, out, &put.key, *pending)?;
            write_put(alloc, out, put)
        }
    }
}
