//! The end of a program.
ghost use Rattle.std.specs.Prelude.{◌≡◌};
ghost use Rattle.std.specs.Process.{exit_status};
ghost use Rattle.kube_model.specs.Status.{status_code};

use kube_model::Status;
use std::process::ExitCode;

/// The exit status that says why the program ends. The text of the status goes to standard error
/// first, but for one that is done.
pub fn exit_code(rt: &HostRuntime, status: &Status) -> ExitCode
    ensures { exit_status result ≡ status_code status.now }
{
    if !status.is_done()
        && let Ok(text) = status.text(rt.alloc())
    {
        // Nothing is left to do where standard error can't be written.
        let _ = eprintln!(rt; "{text}");
    }
    ExitCode::from(status.code())
}
