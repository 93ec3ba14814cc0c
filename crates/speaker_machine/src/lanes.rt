//! The speaker, as a machine over the items of two lanes: the watched objects, and the received
//! frames.
ghost use Rattle.std.specs.Prelude.{◌≡◌, ◌≤◌, ◌++◌, OnOk, IfOk, IfErr, Err};
ghost use Rattle.kube_lines.specs.OutputLines.{took_text};
ghost use Rattle.lane_drive.specs.LaneRules.{TakesItem, RefusesItem};
ghost use Rattle.line_run.specs.Run.{text_of};
ghost use Rattle.line_run.specs.Text.{Halts, line_of};
ghost use Rattle.mlb_edge.specs.Written.{Grows};
ghost use Rattle.speaker_machine.specs.Lanes.{lane_rules, name_of};
ghost use Rattle.speaker_machine.specs.Stream.{speaker_rules};

use crate::events::{apply_event, frame_in};
use crate::output::write_entries;
use crate::speaker::Speaker;
use crate::transcript::TranscriptEntry;
use kube_model::{Event, LaneName, Status};
use lane_drive::{LaneMachine, write_took};
use lane_mail::{Item, Lane};
use lane_run::Lanes;
use line_run::{Halt, Refusal};
use mlb_base::NoMemory;
use mlb_edge::{Line, Sink};
use program_lines::bad_reply;
use std::alloc::Global;

impl Lanes for Speaker {
    ghost use Rattle.speaker_machine.specs.Lanes.{belongs_to};

    ghost belongs = { belongs_to };

    fn belongs(lane: Lane, event: &Event) -> bool {
        match lane {
            Lane::First => frame_in(event).is_none(),
            Lane::Second => frame_in(event).is_some(),
        }
    }
}

impl LaneMachine for Speaker {
    ghost use Rattle.std.specs.Prelude.{refl};
    ghost use Rattle.speaker_machine.specs.Causes.{items_stop, awaits_none, names_taken};
    ghost use Rattle.speaker_machine.specs.Causes.{names_differ};
    ghost use Rattle.speaker_machine.specs.Lanes.{lane_rules};
    ghost use Rattle.speaker_machine.specs.Stream.{SpeakerState};
    ghost use Rattle.speaker_machine.specs.declared.transcript.TranscriptEntry.{TranscriptEntry as SpeakerEntry};

    ghost State = { SpeakerState };

    ghost TranscriptEntry = { SpeakerEntry };

    ghost state = { λ speaker. speaker };

    ghost rules = { lane_rules };

    fn lane_name(lane: Lane) -> LaneName {
        name_of(lane)
    }

    fn hears() -> bool {
        false
    }

    fn waits(&self) -> bool {
        false
    }

    fn take_item<K: Sink>(
        &mut self,
        alloc: Global,
        item: Item,
        out: &mut K,
    ) -> Result<(), Refusal> {
        drive_item(alloc, self, item, out)
    }

    // No reply is awaited, so no line of the input is one.
    fn hear<K: Sink>(&mut self, _alloc: Global, line: Line, _out: &mut K) -> Result<(), Refusal>
        ensures refused { result ≡ Err (Refusal.Stopped (Status.BadReply line.number line.bytes)) }
        ensures kept { (self.new ≡ self.old) × (_out.new ≡ _out.old) }
    {
        Err(bad_reply(line))
    }

    fn unanswered(&self) -> Result<Status, NoMemory>
        ensures { IfOk result (λ status. status ≡ Status.Done) }
    {
        Ok(Status::Done)
    }

    ghost items_stop = { items_stop };

    ghost replies_stop = { λ s line status waits _. awaits_none s waits };

    ghost unanswered_puts = { λ s waits. awaits_none s waits };

    ghost unheard = { λ _ s. refl };

    ghost named = { names_taken };

    ghost differ = { names_differ };
}

/// The name of the lane.
pub fn name_of(lane: Lane) -> LaneName
    ensures { result ≡ name_of lane }
{
    match lane {
        Lane::First => LaneName::Watch,
        Lane::Second => LaneName::Frame,
    }
}

/// Applies the item's event to the view, and writes the line that tells of the item, and then what
/// comes of it.
fn drive_item<K: Sink>(
    alloc: Global,
    speaker: &mut Speaker,
    item: Item,
    out: &mut K,
) -> Result<(), Refusal>
    ensures ok { OnOk result (TakesItem lane_rules speaker.old speaker.new item
        (K.written out.old) (K.written out.new)) }
    ensures err { IfErr result (λ refusal. RefusesItem refusal lane_rules speaker.old item
        (K.written out.old) (K.written out.new) (K.faults out.old) (K.faults out.new)) }
    ensures later { K.faults out.old ≤ K.faults out.new }
{
    let Item {
        lane,
        number,
        event,
    } = item;
    let entries = apply_event(alloc, speaker, event)?;
    let written = write_item(alloc, out, lane, number, entries.as_slice());
    drop(entries);
    Ok(written?)
}

/// Tells that the item of this number was taken from the lane, and then the entries.
pub fn write_item<K: Sink>(
    alloc: Global,
    out: &mut K,
    lane: Lane,
    number: u64,
    entries: &[TranscriptEntry],
) -> Result<(), Halt>
    ensures ok { OnOk result (Grows (K.written out.old) (K.written out.new)
        (line_of (took_text (name_of lane) number) ++ text_of speaker_rules entries.now)) }
    ensures err { IfErr result (λ halt. Halts halt
        (line_of (took_text (name_of lane) number) ++ text_of speaker_rules entries.now)
        (K.written out.old) (K.written out.new) (K.faults out.old) (K.faults out.new)) }
    ensures later { K.faults out.old ≤ K.faults out.new }
{
    let name = name_of(lane);
    if let Err(halt) = write_took(alloc, out, name, number) {
        return Err(halt);
    }
    write_entries(alloc, out, entries)
}
