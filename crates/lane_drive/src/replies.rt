//! The lines of the input, which are replies.

use crate::lane_machine::LaneMachine;
use kube_model::Status;
use line_run::{Machine, Refusal};
use mlb_base::NoMemory;
use mlb_edge::{Line, Sink};
use std::alloc::Global;

/// Hears the lines of the input: each is the reply that is awaited, and where none is the input is
/// at its end.
pub(crate) struct Replies<M> {
    pub(crate) machine: M,
}

impl<M: LaneMachine> Machine for Replies<M> {
    ghost use Rattle.std.specs.Prelude.{⊤};
    ghost use Rattle.lane_drive.specs.LaneRules.{reply_rules};
    ghost use Rattle.lane_drive.specs.Causes.{reply_causes, end_causes};

    ghost State = { M.State };

    ghost TranscriptEntry = { M.TranscriptEntry };

    ghost state = { λ replies. M.state replies.machine };

    ghost rules = { reply_rules M.rules };

    ghost cause = { λ _. ⊤ };

    fn take<K: Sink>(&mut self, alloc: Global, line: Line, out: &mut K) -> Result<(), Refusal> {
        if self.machine.waits() {
            return self.machine.hear(alloc, line, out);
        }
        Err(Refusal::Stopped {
            status: Status::BadReply {
                number: line.number,
                bytes: line.bytes,
            },
        })
    }

    fn end(&self) -> Result<Status, NoMemory> {
        if self.machine.waits() {
            self.machine.unanswered()
        } else {
            Ok(Status::Done)
        }
    }

    ghost stops = { reply_causes M.rules M.replies_stop };

    ghost ends = { end_causes M.rules M.unanswered_puts };
}
