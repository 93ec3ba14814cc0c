//! The controller, as a machine over lines.
ghost use Rattle.std.specs.Prelude.{◌≡◌, IfOk};
ghost use Rattle.std.specs.Option.{option_map};
ghost use Rattle.core_rules.specs.Core.{fresh};
ghost use Rattle.controller_run.specs.Stream.{end_of};

use crate::line::drive_line;
use ctl_core::Core;
use kube_model::Status;
use line_run::{Machine, Refusal};
use mlb_base::{NoMemory, TryCopy};
use mlb_edge::{Line, Sink};
use program_exit::owned_word;
use std::alloc::Global;

/// Drives a core by lines: each is an event, or the reply to the put in flight.
#[derive(Drop)]
pub(crate) struct Controller {
    pub(crate) core: Core,
}

impl Controller {
    /// A controller whose core holds nothing. It handles the services of the class, or those
    /// without one.
    pub(crate) fn new(alloc: Global, class: Option<&str>) -> Result<Controller, NoMemory>
        ensures { IfOk result (λ controller. controller.core
            ≡ fresh (option_map (λ c. c.now) class.entry)) }
    {
        Ok(Controller {
            core: Core::new(alloc, owned_word(alloc, class)?)?,
        })
    }
}

/// The status where the input ends.
pub(crate) fn end_status(core: &Core) -> Result<Status, NoMemory>
    ensures { IfOk result (λ status. status ≡ end_of core.now.out) }
{
    let Some(put) = core.put_out() else {
        return Ok(Status::Done);
    };
    Ok(Status::NoReply { put: put.copy()? })
}

impl Machine for Controller {
    ghost use Rattle.core_rules.specs.Core.{State as CoreState};
    ghost use Rattle.core_drive.specs.Drive.{TranscriptEntry as DriveEntry};
    ghost use Rattle.controller_run.specs.Stream.{controller_rules, IsCause};
    ghost use Rattle.controller_run.specs.Causes.{line_causes, end_causes};

    ghost State = { CoreState };

    ghost TranscriptEntry = { DriveEntry };

    ghost state = { λ controller. controller.core };

    ghost rules = { controller_rules };

    ghost cause = { IsCause };

    fn take<K: Sink>(&mut self, alloc: Global, line: Line, out: &mut K) -> Result<(), Refusal> {
        drive_line(alloc, &mut self.core, line, out)
    }

    fn end(&self) -> Result<Status, NoMemory> {
        end_status(&self.core)
    }

    ghost stops = { line_causes };

    ghost ends = { end_causes };
}
