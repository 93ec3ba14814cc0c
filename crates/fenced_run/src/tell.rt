//! What the fence is told, and what the core hears of it.
ghost use Rattle.std.specs.Prelude.{◌≡◌, ◌≤◌, OnOk, IfOk, IfErr};
ghost use Rattle.line_run.specs.Text.{Halts};
ghost use Rattle.mlb_edge.specs.Written.{Grows};
ghost use Rattle.put_fence.specs.Fences.{taken};
ghost use Rattle.fenced_run.specs.Drive.{given_in, telling};
ghost use Rattle.fenced_run.specs.Stream.{given_text};
ghost use Rattle.fenced_run.specs.Stepping.{Steps, state_of, step_text};

use crate::output::write_given;
use ctl_core::Core;
use kube_labels::Text;
use kube_model::PutReply;
use line_run::Halt;
use mlb_edge::Sink;
use put_fence::{Fence, Input, Output, Taken};
use std::alloc::Global;
use std::mem;

/// What stands in a fence's place while that is told something.
fn stand_in(alloc: Global) -> Fence {
    let Taken { fence, output: _ } = Fence::start(alloc, Text::from_string(String::new(alloc)));
    fence
}

/// The reply that the fence gives to the program, if it gives one.
fn given_in(output: &Output) -> Option<PutReply>
    ensures { result ≡ given_in output.now }
{
    match output {
        Output::Reply { reply } => Some(*reply),
        Output::Nothing
        | Output::Ask { .. }
        | Output::Again { .. }
        | Output::Lost
        | Output::Absent
        | Output::Unexpected => None,
    }
}

/// Tells the fence this, and writes what it is to do. The reply that it gives, if it gives one.
fn tell_fence<K: Sink>(
    alloc: Global,
    fence: &mut Fence,
    input: Input,
    out: &mut K,
) -> Result<Option<PutReply>, Halt>
    ensures fence { OnOk result (fence.new ≡ (taken input fence.old).fence) }
    ensures given { IfOk result (λ given. given ≡ given_in (taken input fence.old).output) }
    ensures ok { OnOk result (Grows (K.written out.old) (K.written out.new)
        (given_text (taken input fence.old))) }
    ensures err { IfErr result (λ halt. Halts halt (given_text (taken input fence.old))
        (K.written out.old) (K.written out.new) (K.faults out.old) (K.faults out.new)) }
    ensures later { K.faults out.old ≤ K.faults out.new }
{
    let told = mem::replace(fence, stand_in(alloc));
    let taken = told.take(alloc, input)?;
    let written = write_given(alloc, out, &taken);
    let Taken {
        fence: next,
        output,
    } = taken;
    drop(mem::replace(fence, next));
    written?;
    Ok(given_in(&output))
}

/// Tells the fence this. Where a put is in flight, the core hears the reply that the fence gives.
/// Whether it heard one, so that turns may follow.
pub(crate) fn tell<K: Sink>(
    alloc: Global,
    core: &mut Core,
    fence: &mut Fence,
    input: Input,
    out: &mut K,
) -> Result<bool, Halt>
    ensures step { IfOk result (λ goes_on. Steps goes_on (state_of core.new fence.new)
        (telling input (state_of core.old fence.old))) }
    ensures ok { OnOk result (Grows (K.written out.old) (K.written out.new)
        (step_text (telling input (state_of core.old fence.old)))) }
    ensures err { IfErr result (λ halt. Halts halt
        (step_text (telling input (state_of core.old fence.old)))
        (K.written out.old) (K.written out.new) (K.faults out.old) (K.faults out.new)) }
    ensures later { K.faults out.old ≤ K.faults out.new }
{
    let Some(reply) = tell_fence(alloc, fence, input, out)? else {
        return Ok(false);
    };
    if core.put_out().is_none() {
        return Ok(false);
    }
    core.answered(reply)?;
    Ok(true)
}
