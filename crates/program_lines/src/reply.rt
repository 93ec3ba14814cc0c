//! A line that is no reply.
ghost use Rattle.std.specs.Prelude.{◌≡◌};
ghost use Rattle.kube_model.specs.declared.status.Status.TheVariants.{BadReply};
ghost use Rattle.line_run.specs.declared.halt.Refusal.TheVariants.{Stopped};

use kube_model::Status;
use line_run::Refusal;
use mlb_edge::Line;

/// The run stops at a line that is no reply.
pub fn bad_reply(line: Line) -> Refusal
    ensures { result ≡ Stopped (BadReply line.number line.bytes) }
{
    Refusal::Stopped {
        status: Status::BadReply {
            number: line.number,
            bytes: line.bytes,
        },
    }
}
