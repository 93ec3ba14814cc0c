//! The controller behind its fence, as a machine over lines.
ghost use Rattle.std.specs.Prelude.{◌≡◌, IfOk};
ghost use Rattle.std.specs.Option.{option_map};
ghost use Rattle.core_rules.specs.Core.{fresh};
ghost use Rattle.put_fence.specs.Fences.{started};
ghost use Rattle.fenced_run.specs.Stream.{end_where};

use crate::line::drive_line;
use ctl_core::Core;
use kube_model::Status;
use line_run::{Machine, Refusal};
use mlb_base::{NoMemory, TryCopy};
use mlb_edge::{Line, Sink};
use put_fence::{Fence, Stage};
use std::alloc::Global;

/// A core and the fence of its puts, driven by lines: each is an event, or what the fence is told.
#[derive(Drop)]
pub(crate) struct FencedController {
    pub(crate) core: Core,
    pub(crate) fence: Fence,
}

/// The status where the input ends.
fn end_status(core: &Core, fence: &Fence) -> Result<Status, NoMemory>
    ensures { IfOk result (λ status. status ≡ end_where fence.now.stage core.now.out) }
{
    if let Stage::Lost = &fence.stage {
        return Ok(Status::Done);
    }
    let Some(put) = core.put_out() else {
        return Ok(Status::Done);
    };
    Ok(Status::NoReply { put: put.copy()? })
}

impl Machine for FencedController {
    ghost use Rattle.fenced_run.specs.Causes.{line_causes, end_causes};
    ghost use Rattle.fenced_run.specs.Drive.{FencedState, TranscriptEntry as FencedEntry};
    ghost use Rattle.fenced_run.specs.Stream.{fenced_rules, IsCause};

    ghost State = { FencedState };

    ghost TranscriptEntry = { FencedEntry };

    ghost state = { λ c. record { core = c.core; fence = c.fence } };

    ghost rules = { fenced_rules };

    ghost cause = { IsCause };

    fn take<K: Sink>(&mut self, alloc: Global, line: Line, out: &mut K) -> Result<(), Refusal> {
        drive_line(alloc, &mut self.core, &mut self.fence, line, out)
    }

    fn end(&self) -> Result<Status, NoMemory> {
        end_status(&self.core, &self.fence)
    }

    ghost stops = { line_causes };

    ghost ends = { end_causes };
}
