//! One event: it is applied to the view, and what comes of it is told.
ghost use Rattle.std.specs.Prelude.{◌≡◌, ℕ, None, Some, OnOk, IfOk, IfErr, IsErrOf};
ghost use Rattle.std.specs.Option.{option_copied, option_map};
ghost use Rattle.kube_model.specs.declared.object.Kind.{Kind};
ghost use Rattle.speaker_view.specs.View.{limit_by};
ghost use Rattle.l2_elect.specs.Kept.{AreKnown};
ghost use Rattle.line_run.specs.Machine.{Goes};
ghost use Rattle.speaker_machine.specs.Seen.{received_seen};
ghost use Rattle.speaker_machine.specs.Sends.{answers};
ghost use Rattle.speaker_machine.specs.Stream.{state_after, frame_in, entries_of, step_by};
ghost use Rattle.speaker_machine.specs.Stream.{IsUnapplied, what_of};

use crate::local_node::LocalNode;
use crate::sends::answers;
use crate::speaker::Speaker;
use crate::transcript::TranscriptEntry;
use kube_labels::Text;
use kube_model::{Event, Kind, Status, What};
use l2_elect::Announcers;
use line_run::{Halt, Refusal};
use mlb_base::{ByteList, NoMemory, Sequence};
use object_cache::ApplyFault;
use speaker_view::View;
use std::alloc::Global;

/// Applies the event to the view. What is to be told of it, or why it isn't applied.
pub fn apply_event(
    alloc: Global,
    speaker: &mut Speaker,
    event: Event,
) -> Result<Sequence<TranscriptEntry>, Refusal>
    ensures ok { IfOk result (λ entries. step_by speaker.old event ≡ Goes speaker.new entries) }
    ensures err { IfErr result (λ refusal. IsUnapplied refusal speaker.old event) }
{
    match entries_by(alloc, speaker, event) {
        Ok(entries) => Ok(entries),
        Err(ApplyFault::NoMemory) => Err(Refusal::Halted {
            halt: Halt::NoMemory,
        }),
        Err(ApplyFault::Limit { kind, count }) => Err(Refusal::Stopped {
            status: Status::Limit {
                what: what_of(kind),
                count,
            },
        }),
    }
}

/// Applies the event. What is to be told of it.
fn entries_by(
    alloc: Global,
    speaker: &mut Speaker,
    event: Event,
) -> Result<Sequence<TranscriptEntry>, ApplyFault>
    ensures ok { IfOk result (λ entries. entries ≡ entries_of speaker.old event) }
    ensures state { OnOk result (speaker.new ≡ state_after speaker.old event) }
    ensures within { OnOk result (limit_by speaker.old.view event ≡ None) }
    ensures limit { (kind : Kind) (count : ℕ)
        → IsErrOf result (ApplyFault.Limit kind count)
        → limit_by speaker.old.view event ≡ Some (kind, count) }
{
    match answers_to(
        alloc,
        &speaker.view,
        speaker.announcers.as_ref(),
        &speaker.local,
        &event,
    ) {
        Ok(None) => speaker.changes_by(alloc, event),
        Ok(Some(entries)) => {
            drop(event);
            Ok(entries)
        }
        Err(NoMemory) => {
            drop(event);
            Err(ApplyFault::NoMemory)
        }
    }
}

/// What is sent where the event is a frame.
fn answers_to(
    alloc: Global,
    view: &View,
    announcers: Option<&Announcers>,
    local: &LocalNode,
    event: &Event,
) -> Result<Option<Sequence<TranscriptEntry>>, NoMemory>
    requires { AreKnown (option_copied announcers) view.now }
    ensures { IfOk result (λ entries. entries
        ≡ option_map (λ r. answers view.now local.now r.interface r.frame) (frame_in event.now)) }
{
    let Some(received) = frame_in(event) else {
        return Ok(None);
    };
    let frame = received.frame.as_slice();
    let entries = answers(alloc, view, announcers, local, received.interface, frame)?;
    Ok(Some(entries))
}

/// A frame that an interface received.
#[derive(Clone, Copy)]
pub(crate) struct Received<'a> {
    interface: &'a Text,
    frame: &'a ByteList,
}

/// The frame of an event.
pub(crate) fn frame_in(event: &Event) -> Option<Received<'_>>
    ensures { option_map received_seen result ≡ frame_in event.now }
{
    match event {
        Event::Frame { interface, bytes } => Some(Received {
            interface,
            frame: bytes,
        }),
        Event::Changed { .. }
        | Event::Deleted { .. }
        | Event::ListEnd { .. }
        | Event::Expired
        | Event::Members { .. }
        | Event::Ignored => None,
    }
}

/// What there is too much of where a limit of the kind is passed; services and nodes alone have
/// one.
fn what_of(kind: Kind) -> What
    ensures { result ≡ what_of kind }
{
    match kind {
        Kind::Service => What::Services,
        Kind::Node
        | Kind::Pool
        | Kind::L2
        | Kind::Bgp
        | Kind::Peer
        | Kind::Community
        | Kind::Namespace
        | Kind::Slice => What::Nodes,
    }
}
