//! Turns, up to the first whose put the fence doesn't reply to at once.
ghost use Rattle.std.specs.Prelude.{◌≡◌, ◌≤◌, OnOk, IfOk, IfErr, None};
ghost use Rattle.line_run.specs.Text.{Halts};
ghost use Rattle.mlb_edge.specs.Written.{Grows};
ghost use Rattle.fenced_run.specs.Drive.{turning, turns_from};
ghost use Rattle.fenced_run.specs.Stepping.{Steps, driven_text, state_of, step_text};

use crate::output::write_reason;
use crate::tell::tell;
use core_rules::Turn;
use ctl_core::Core;
use line_run::Halt;
use mlb_edge::Sink;
use put_fence::{Fence, Input};
use std::alloc::Global;

/// Makes the next turn. The fence is told of the put that it wants. Whether turns may follow: no
/// put is in flight.
fn make_turn<K: Sink>(
    alloc: Global,
    core: &mut Core,
    fence: &mut Fence,
    out: &mut K,
) -> Result<bool, Halt>
    requires { core.old.out ≡ None }
    ensures step { IfOk result (λ goes_on. Steps goes_on (state_of core.new fence.new)
        (turning (state_of core.old fence.old))) }
    ensures ok { OnOk result (Grows (K.written out.old) (K.written out.new)
        (step_text (turning (state_of core.old fence.old)))) }
    ensures err { IfErr result (λ halt. Halts halt
        (step_text (turning (state_of core.old fence.old)))
        (K.written out.old) (K.written out.new) (K.faults out.old) (K.faults out.new)) }
    ensures later { K.faults out.old ≤ K.faults out.new }
{
    let turn = core.next_put()?;
    match turn {
        Turn::Idle => Ok(true),
        Turn::NoPut { key, pending } => {
            write_reason(alloc, out, &key, pending)?;
            Ok(true)
        }
        Turn::Wants { put, pending } => {
            write_reason(alloc, out, &put.key, pending)?;
            tell(alloc, core, fence, Input::Put { put }, out)
        }
    }
}

/// Makes turns up to the first whose put the fence doesn't reply to at once, or until nothing is
/// queued, and writes what they come to.
pub(crate) fn make_turns<K: Sink>(
    alloc: Global,
    core: &mut Core,
    fence: &mut Fence,
    out: &mut K,
) -> Result<(), Halt>
    requires { core.old.out ≡ None }
    ensures state { OnOk result (state_of core.new fence.new
        ≡ (turns_from (state_of core.old fence.old)).state) }
    ensures ok { OnOk result (Grows (K.written out.old) (K.written out.new)
        (driven_text (turns_from (state_of core.old fence.old)))) }
    ensures err { IfErr result (λ halt. Halts halt
        (driven_text (turns_from (state_of core.old fence.old)))
        (K.written out.old) (K.written out.new) (K.faults out.old) (K.faults out.new)) }
    ensures later { K.faults out.old ≤ K.faults out.new }
{
    'turns: while core.has_turn() {
        if !make_turn(alloc, core, fence, out)? {
            return Ok(());
        }
    }
    Ok(())
}
