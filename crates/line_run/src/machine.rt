//! What is driven by lines.
ghost use Rattle.std.specs.Prelude.{◌≡◌, ◌≤◌, OnOk, IfOk, IfErr};
ghost use Rattle.kube_model.specs.declared.status.Status.{Status};
ghost use Rattle.mlb_edge.specs.declared.lines.Line.{Line};
ghost use Rattle.line_run.specs.Machine.{Rules, Stops};
ghost use Rattle.line_run.specs.Statuses.{IsLineStatus, IsEndStatus};
ghost use Rattle.line_run.specs.Steps.{Takes, Refuses};

use crate::halt::Refusal;
use kube_model::Status;
use mlb_base::NoMemory;
use mlb_edge::{Line, Sink};
use std::alloc::Global;

/// Takes lines one after the other, and writes what comes of each.
pub trait Machine {
    /// What its lines lead from and to.
    ghost State: { Type 0 };

    /// What its transcript is made of.
    ghost TranscriptEntry: { Type 0 };

    /// The state that it has.
    ghost state: { Self → State };

    /// What a line and the end of the input are to a state, and what is written of an entry.
    ghost rules: { Rules State TranscriptEntry };

    /// What is so where a run stops with this status, whatever is known of its lines. It holds
    /// nowhere of a status that the machine never gives.
    ghost cause: { Status → Type 0 };

    /// Takes the line, and writes what comes of it before it returns.
    fn take<K: Sink>(&mut self, alloc: Global, line: Line, out: &mut K) -> Result<(), Refusal>
        ensures ok { OnOk result (Takes rules (state self.old) (state self.new) line
            (K.written out.old) (K.written out.new)) }
        ensures err { IfErr result (λ refusal. Refuses refusal rules (state self.old) line
            (K.written out.old) (K.written out.new) (K.faults out.old) (K.faults out.new)) }
        ensures later { K.faults out.old ≤ K.faults out.new };

    /// The status where the input ends.
    fn end(&self) -> Result<Status, NoMemory>
        ensures { IfOk result (λ status. status ≡ rules.end (state self.now)) };

    /// Why it stops at a line.
    ghost stops: { (s : State) (line : Line) (status : Status) → rules.step s line ≡ Stops status
        → IsLineStatus status × cause status };

    /// How it stops at the end.
    ghost ends: { (s : State) → IsEndStatus (rules.end s) × cause (rules.end s) };
}
