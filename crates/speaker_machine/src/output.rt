//! The lines that are written.
ghost use Rattle.std.specs.Prelude.{◌≡◌, ◌≤◌, OnOk, IfOk, IfErr};
ghost use Rattle.mlb_edge.specs.Written.{Grows};
ghost use Rattle.line_run.specs.Run.{text_of};
ghost use Rattle.kube_lines.specs.OutputLines.{send_text, update_text};
ghost use Rattle.line_run.specs.Text.{Halts, line_of};
ghost use Rattle.speaker_machine.specs.Transcript.{entry_text};
ghost use Rattle.speaker_machine.specs.Stream.{speaker_rules};

use crate::transcript::TranscriptEntry;
use kube_labels::Text;
use kube_lines::{announce_line, send_line, update_line, withdraw_line};
use line_run::{Halt, write_line};
use mlb_base::{ByteList, NoMemory};
use mlb_edge::Sink;
use program_lines::write_note;
use std::alloc::Global;

/// Tells the entries, one after the other.
pub(crate) fn write_entries<K: Sink>(
    alloc: Global,
    out: &mut K,
    entries: &[TranscriptEntry],
) -> Result<(), Halt>
    ensures ok { OnOk result (Grows (K.written out.old) (K.written out.new)
        (text_of speaker_rules entries.now)) }
    ensures err { IfErr result (λ halt. Halts halt (text_of speaker_rules entries.now)
        (K.written out.old) (K.written out.new) (K.faults out.old) (K.faults out.new)) }
    ensures later { K.faults out.old ≤ K.faults out.new }
{
    for entry in entries {
        if let Err(halt) = write_entry(alloc, out, entry) {
            return Err(halt);
        }
    }
    Ok(())
}

fn write_entry<K: Sink>(alloc: Global, out: &mut K, entry: &TranscriptEntry) -> Result<(), Halt>
    ensures ok { OnOk result (Grows (K.written out.old) (K.written out.new)
        (entry_text entry.now)) }
    ensures err { IfErr result (λ halt. Halts halt (entry_text entry.now)
        (K.written out.old) (K.written out.new) (K.faults out.old) (K.faults out.new)) }
    ensures later { K.faults out.old ≤ K.faults out.new }
{
    match entry {
        TranscriptEntry::Noted { note } => write_note(alloc, out, note),
        TranscriptEntry::Withdrawn { address } => {
            let Ok(text) = withdraw_line(alloc, address) else {
                return Err(Halt::NoMemory);
            };
            write_line(out, text)
        }
        TranscriptEntry::Announced { address } => {
            let Ok(text) = announce_line(alloc, address) else {
                return Err(Halt::NoMemory);
            };
            write_line(out, text)
        }
        TranscriptEntry::Sent { interface, frame } => write_sent(
            alloc,
            out,
            interface,
            frame.as_slice(),
        ),
        TranscriptEntry::Updated { peer, message } => write_update(alloc, out, peer, message),
    }
}

/// Tells that the message is for the peer.
fn write_update<K: Sink>(
    alloc: Global,
    out: &mut K,
    peer: &Text,
    message: &ByteList,
) -> Result<(), Halt>
    ensures ok { OnOk result (Grows (K.written out.old) (K.written out.new)
        (line_of (update_text peer.now message.now))) }
    ensures err { IfErr result (λ halt. Halts halt (line_of (update_text peer.now message.now))
        (K.written out.old) (K.written out.new) (K.faults out.old) (K.faults out.new)) }
    ensures later { K.faults out.old ≤ K.faults out.new }
{
    let Ok(text) = updated_text(alloc, peer, message) else {
        return Err(Halt::NoMemory);
    };
    write_line(out, text)
}

fn updated_text(alloc: Global, peer: &Text, message: &ByteList) -> Result<Text, NoMemory>
    ensures { IfOk result (λ text. text ≡ update_text peer.now message.now) }
{
    update_line(alloc, peer, message.as_slice())
}

/// Tells that the frame is to be sent.
pub fn write_sent<K: Sink>(
    alloc: Global,
    out: &mut K,
    interface: &Text,
    frame: &[u8],
) -> Result<(), Halt>
    ensures ok { OnOk result (Grows (K.written out.old) (K.written out.new)
        (line_of (send_text interface.now frame.now))) }
    ensures err { IfErr result (λ halt. Halts halt (line_of (send_text interface.now frame.now))
        (K.written out.old) (K.written out.new) (K.faults out.old) (K.faults out.new)) }
    ensures later { K.faults out.old ≤ K.faults out.new }
{
    let Ok(text) = send_line(alloc, interface, frame) else {
        return Err(Halt::NoMemory);
    };
    write_line(out, text)
}
