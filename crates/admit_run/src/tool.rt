//! The admission tool, as a machine over lines.

use crate::line::drive_line;
use crate::work::Work;
use kube_model::Status;
use line_run::{Machine, Refusal};
use mlb_base::NoMemory;
use mlb_edge::{Line, Sink};
use std::alloc::Global;

impl Machine for Work {
    ghost use Rattle.admit_run.specs.declared.work.Work.{Work as Doing};
    ghost use Rattle.admit_run.specs.Stream.{TranscriptEntry as Told, admit_rules, IsCause};
    ghost use Rattle.admit_run.specs.Causes.{line_causes, end_causes};

    ghost State = { Doing };

    ghost TranscriptEntry = { Told };

    ghost state = { λ work. work };

    ghost rules = { admit_rules };

    ghost cause = { IsCause };

    fn take<K: Sink>(&mut self, alloc: Global, line: Line, out: &mut K) -> Result<(), Refusal> {
        drive_line(alloc, self, line, out)
    }

    fn end(&self) -> Result<Status, NoMemory> {
        Ok(Status::Done)
    }

    ghost stops = { line_causes };

    ghost ends = { end_causes };
}
