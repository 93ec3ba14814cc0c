//! The run over one stream.
ghost use Rattle.std.specs.Prelude.{◌≡◌, ◌↔◌, None};
ghost use Rattle.line_run.specs.Clauses.{AtReadFault, AtWriteFault, RunOwes};
ghost use Rattle.command_options.specs.Options.{texts_of};
ghost use Rattle.speaker_words.specs.Words.{AreKnown};
ghost use Rattle.speaker_machine.specs.Stream.{IsCause, speaker_rules};
ghost use Rattle.speaker_laws.specs.Clauses.{begun_by, lanes_of};
ghost use Rattle.speaker_laws.specs.Right.{WritesRightly};
ghost use Rattle.speaker_run.specs.Clauses.{InStream, MayAskAnswered, CanEnd};

use kube_model::Status;
use line_run::{PacedSource, run_machine};
use mlb_edge::Sink;
use speaker_machine::Speaker;
use speaker_words::speaker_words;
use std::alloc::Global;

/// The work of the program on one stream, where the words name no lane files: each line of the
/// input is an event. What comes of it is written before the source is asked for more, which may be
/// one that gives the next line only once it has seen what came of those before: the note of a
/// configuration, a withdraw line for each address that isn't announced any more, an announce line
/// for each that is from now on, with the unsolicited frames that are sent, the update lines of
/// each BGP peer, and the frame that is sent in answer to one that was received.
pub fn stream_speaker<S: PacedSource<K>, K: Sink>(
    alloc: Global,
    words: &[String],
    input: &mut S,
    out: &mut K,
) -> Status
    requires asked { lanes_of (texts_of words.now) ≡ None }
    requires live { MayAskAnswered words.now S.name S.left S.may_read K.written input.old out.old }

    ensures can_end { CanEnd result }
    ensures usage { (result ≡ Status.Usage) ↔ (¬ (AreKnown (texts_of words.now))) }
    ensures unused { result ≡ Status.Usage → (input.new ≡ input.old) × (out.new ≡ out.old) }

    // A fault comes only where its count rose.
    ensures read_fault { AtReadFault result (S.faults input.old) (S.faults input.new) }
    ensures write_fault { AtWriteFault result (K.faults out.old) (K.faults out.new) }

    // What was read and written, whatever the status, where the words are of the table and all
    // comes by one stream.
    ensures run { InStream words.now
        (AreKnown (texts_of words.now) → RunOwes speaker_rules IsCause (begun_by words.now) result
        (S.left input.old) (S.left input.new) (K.written out.old) (K.written out.new)) }

    // A beginning of the text of the input's lines was written, or of some where the source doesn't
    // tell its bytes, and their run is right.
    ensures only { InStream words.now (AreKnown (texts_of words.now) → WritesRightly words.now
        (S.left input.old) (K.written out.old) (K.written out.new)) }
{
    let Some(said) = speaker_words(words) else {
        return Status::Usage;
    };
    let Ok(mut speaker) = Speaker::new(alloc, &said) else {
        return Status::NoMemory;
    };
    let status = run_machine(alloc, &mut speaker, input, out);
    drop(speaker);
    status
}
