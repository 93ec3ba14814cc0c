//! A trial of the world, in place of a run over lines.
ghost use Rattle.std.specs.Prelude.{◌≢◌};
ghost use Rattle.kube_model.specs.declared.status.LaneName.{LaneName};
ghost use Rattle.line_run.specs.Clauses.{AtWriteFault, CanEnd};
ghost use Rattle.controller_run.specs.Stream.{IsCause};
ghost use Rattle.controller_run.specs.Trial.{TrialEnds};

use kube_model::Status;
use mlb_edge::{Sink, put_all};
use std::alloc::Global;
use world_trial::{report_text, trial};

/// Makes a trial, and writes what is told of it.
pub(crate) fn run_trial<K: Sink>(alloc: Global, seed: u64, steps: u32, out: &mut K) -> Status
    ensures ends { TrialEnds seed steps result (K.written out.old) (K.written out.new) }
    ensures can_end { CanEnd IsCause result }
    ensures used { result ≢ Status.Usage }
    ensures unread { (lane : LaneName) → result ≢ Status.ReadFault lane }
    ensures write_fault { AtWriteFault result (K.faults out.old) (K.faults out.new) }
{
    let Ok(report) = trial(alloc, seed, steps) else {
        return Status::NoMemory;
    };
    let Ok(text) = report_text(alloc, &report) else {
        return Status::NoMemory;
    };
    match put_all(out, text.as_bytes()) {
        Ok(()) => Status::Done,
        Err(_) => Status::WriteFault,
    }
}
