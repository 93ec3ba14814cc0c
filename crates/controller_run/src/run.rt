//! The top call.
ghost use Rattle.std.specs.Prelude.{◌≡◌, ◌↔◌, ℕ, List, IfSome, IfNone};
ghost use Rattle.std.specs.Option.{option_map};
ghost use Rattle.command_options.specs.Lanes.{lane_seen};
ghost use Rattle.kube_model.specs.declared.status.LaneName.{LaneName};
ghost use Rattle.lane_drive.specs.Files.{files_state};
ghost use Rattle.lane_run.specs.Outside.{source_state};
ghost use Rattle.line_run.specs.Clauses.{AtReadFault, AtWriteFault, RunOwes};
ghost use Rattle.command_options.specs.Options.{texts_of};
ghost use Rattle.controller_words.specs.Words.{AreKnown};
ghost use Rattle.core_rules.specs.Core.{fresh};
ghost use Rattle.controller_run.specs.Asked.{AskLanes, AskNoLanes};
ghost use Rattle.controller_run.specs.LaneClauses.{OverLanes, LanesMayAsk, LanesMayOpen};
ghost use Rattle.controller_run.specs.LaneClauses.{LanesMayWait, LanesMayDrop, LanesEnd};
ghost use Rattle.controller_run.specs.LaneClauses.{LanesComplete, LanesDone, LanesSafe, LanesSound};
ghost use Rattle.controller_run.specs.LaneClauses.{LanesQuiet, LaneCanEnd, LaneOpenFault};
ghost use Rattle.controller_run.specs.LaneClauses.{LaneReadFault, LaneOthers};
ghost use Rattle.controller_run.specs.Clauses.{OverStream, MayAskAnswered, CanEnd, WritesRightly};
ghost use Rattle.controller_run.specs.Clauses.{WritesSafely, EndsQuiet, WritesTrial, LeavesInput};
ghost use Rattle.controller_run.specs.Stream.{IsCause, controller_rules};

use crate::lane_files::lanes_controller;
use crate::stream::stream_controller;
use controller_words::{Asked, LaneFiles, controller_words};
use kube_model::Status;
use lane_run::{MailWait, PacedWait, WatchedFiles};
use line_run::PacedSource;
use mlb_edge::Sink;
use std::alloc::Global;
use std::thread::Threads;

/// All that the program does: the run over one stream, where no file is opened, or that over two
/// lane files, where the words name them.
pub fn run_controller<
    R: Threads + PacedWait<K> + MailWait + Sync,
    F: WatchedFiles,
    S: PacedSource<K> + Send,
    K: Sink + Send,
>(rt: &R, alloc: Global, words: &[String], files: &mut F, input: &mut S, out: &mut K) -> Status
    // Over one stream no output is held back: the input may be asked for more where all that came
    // whole was answered. Nothing else is known of when it may, so the program asks it nowhere
    // else. Over two files it may be asked where all that was taken is answered, with all replies
    // that came, and a reply is awaited or both lanes have ended; that a lane's reading failed is
    // possible there where its file isn't safe. What is only a `Source` may be asked at any time,
    // and meets both.
    requires live { MayAskAnswered words.now S.name S.left S.may_read K.written input.old out.old }
    requires lanes_live { OverLanes words.now
        (LanesMayAsk (F.bytes files.old)
        (F.unfailing files.old) S.name S.left S.faults S.may_read K.written K.faults
        input.old out.old) }

    // The file of the configuration may be opened, and once it is open that of the services.
    // Nothing else is known of when a file may: so they are opened in this order, each at most
    // once, and no other is, over one stream none. What is a `Files` may open any at any time.
    requires lanes_open { OverLanes words.now (LanesMayOpen F.may_open F.Opens files.old) }

    // The next event of the files may be waited for where just the text of all that were taken
    // before stands written, with the replies to their puts heard. Nothing else is known of when it
    // may, it can be waited for beside a sink of this type alone, and the files can only be
    // watched: so nothing is held back of `out` meanwhile. What is a `Wait` may wait at any time,
    // and meets this.
    requires lanes_wait { OverLanes words.now (LanesMayWait R.may_wait rt.now
        (source_state (S.left input.old) (S.name input.old) (S.faults input.old)) K.written K.faults
        out.old) }

    // What the files still give may be dropped where the run stopped at the last event taken, or at
    // the reply to its put, and what it wrote of that stands written; and nowhere else.
    requires lanes_drop { OverLanes words.now (LanesMayDrop R.may_drop rt.now
        (source_state (S.left input.old) (S.name input.old) (S.faults input.old)) K.written K.faults
        out.old) }

    ensures no_file { AskNoLanes (texts_of words.now) → files.new ≡ files.old }
    ensures can_end { AskNoLanes (texts_of words.now) → CanEnd result }
    ensures usage { (result ≡ Status.Usage) ↔ (¬ (AreKnown (texts_of words.now))) }
    ensures unused { result ≡ Status.Usage → (input.new ≡ input.old) × (out.new ≡ out.old) }

    // A fault comes only where its count rose.
    ensures read_fault { AskNoLanes (texts_of words.now)
        → AtReadFault result (S.faults input.old) (S.faults input.new) }
    ensures write_fault { AtWriteFault result (K.faults out.old) (K.faults out.new) }

    // What was read and written, whatever the status, where the words ask for a run over the input.
    ensures run { OverStream words.now
        (λ class. RunOwes controller_rules IsCause (fresh class) result
        (S.left input.old) (S.left input.new) (K.written out.old) (K.written out.new)) }

    // Over any input at all a beginning of the text of its lines' run was written, of the class
    // that the words name, and that run is right: it is sound, since each put, each reason and each
    // note is right by the transcript before it, no key is chosen for too early, and an address
    // that is put is marked by the terms of its service, and shared by these with whoever else has
    // or may have it. At each moment two services that have or may have one address share it by the
    // terms of their claims, or the cluster showed it so. And it is safe: whatever store there is,
    // whoever else edits it, in whatever order it is listed and however late its changes are shown,
    // where that explains what was read so far, services recorded with one address share it by the
    // terms of their marks, where both have one, at each moment, and also where a last put that has
    // no reply yet reached the store. And it settles: wherever it has come to in such a world, left
    // alone it takes and puts no more often than is said beforehand of what is held and pending. In
    // whatever order it does so: once nothing is left of that, each stored service has what is
    // chosen for it by what is stored, unless a put was refused for good. And an address stays: as
    // long as a service for which it was put and stored, the labels of its namespace and the
    // configuration are as they were shown, and no other service is shown with one of its
    // addresses, no put changes them. So it is however far the run has come, and where no put is in
    // flight no service is left waiting that could be served.
    ensures only { WritesRightly words.now (S.left input.old) K.written out.old out.new }

    // Two services never wrongly share an address. What was written is a beginning of what was
    // written of the first lines of the input, each of which is an event, or the reply to the put
    // before it. Whatever store there was at the start, whoever edits it and however late its
    // changes are shown, where that is what was read and written so far, services that are recorded
    // with one address share it by the terms of their marks, where both have one: at each moment,
    // and also where a last put that has no reply yet reached the store.
    ensures safe { WritesSafely words.now (S.left input.old) K.written out.old out.new }

    // Where the run is done, no service is left waiting that could be served. Each that is settled
    // has what serves it, or a reason that holds now; or none, where it isn't of type LoadBalancer.
    ensures quiet { EndsQuiet words.now result (S.left input.old) K.written out.old out.new }

    // Where the words ask for a trial nothing is read, and just its text is written. At no moment
    // of it are two services recorded with one address, unless they share it.
    ensures trial { WritesTrial words.now result K.written out.old out.new }
    ensures trial_unread { LeavesInput words.now input.old input.new }

    // Where the words ask for a run over two files: how it ended, once both are open, and with
    // which statuses it may.
    ensures lanes { OverLanes words.now (LanesEnd (F.bytes files.old) (F.unfailing files.old)
        (files_state (F.failed_opens files.old) (F.failed_reads files.old))
        (files_state (F.failed_opens files.new) (F.failed_reads files.new))
        (source_state (S.left input.old) (S.name input.old) (S.faults input.old))
        (source_state (S.left input.new) (S.name input.new) (S.faults input.new))
        (K.written out.old) (K.written out.new) (K.faults out.old) (K.faults out.new) result) }
    ensures lane_can_end { OverLanes words.now (LaneCanEnd result) }

    // Where it is done all that both carry was taken, with all lines of the input as replies to its
    // puts, just its text was written, no service is left waiting that could be served, and each
    // that is settled has its own, as in one stream.
    ensures lanes_done { OverLanes words.now (LanesDone (F.bytes files.old) result
        (S.left input.old) (S.left input.new) (K.written out.old) (K.written out.new)) }
    ensures lanes_quiet { OverLanes words.now (LanesQuiet (F.bytes files.old) result
        (S.left input.old) (S.left input.new) (K.written out.old) (K.written out.new)) }

    // However it ends, and in whatever order the events of both came, a beginning of the text of
    // what was taken was written. That is sound, as a run over one stream is: in every world that
    // explains it services recorded with one address share it by the terms of their marks, it
    // settles when it is left alone, and addresses stay; and so it is however far the run has come.
    // The list that is begun anew where a lane's watch has expired is of what the lane carries.
    ensures lanes_sound { OverLanes words.now
        (LanesSound (F.bytes files.old) (S.left input.old) (K.written out.old)
        (K.written out.new)) }

    // And what was read of both, in some order, and of the input and written is safe in each world
    // in which it is seen, as over one stream.
    ensures lanes_safe { OverLanes words.now
        (LanesSafe (F.bytes files.old) (S.left input.old) (K.written out.old) (K.written out.new)) }

    // Where all can be taken in whatever order it comes, with a reply to each put and no line after
    // the last, and no count of faults rises, it is done, unless memory runs out.
    ensures lanes_complete { OverLanes words.now (LanesComplete (F.bytes files.old) result
        (files_state (F.failed_opens files.old) (F.failed_reads files.old))
        (files_state (F.failed_opens files.new) (F.failed_reads files.new))
        (S.left input.old) (S.faults input.old) (S.faults input.new) (K.faults out.old)
        (K.faults out.new)) }

    // A file isn't opened exactly where its opening failed, and then nothing is read or written; a
    // fault of reading comes only where its count rose. Of no other file an opening or a reading
    // failed.
    ensures lane_open_fault { OverLanes words.now (LaneOpenFault result
        (files_state (F.failed_opens files.old) (F.failed_reads files.old))
        (files_state (F.failed_opens files.new) (F.failed_reads files.new))) }
    ensures lane_read_fault { OverLanes words.now (LaneReadFault result
        (files_state (F.failed_opens files.old) (F.failed_reads files.old))
        (files_state (F.failed_opens files.new) (F.failed_reads files.new)) (S.faults input.old)
        (S.faults input.new)) }
    ensures lane_unopened { (lane : LaneName) → result ≡ Status.OpenFault lane
        → (input.new ≡ input.old) × (out.new ≡ out.old) }
    ensures lane_others { OverLanes words.now (LaneOthers
        (files_state (F.failed_opens files.old) (F.failed_reads files.old))
        (files_state (F.failed_opens files.new) (F.failed_reads files.new))) }
    ensures lane_bytes { (file : List ℕ) → F.bytes files.new file ≡ F.bytes files.old file }
{
    match lanes_asked(words) {
        None => stream_controller(alloc, words, input, out),
        Some((class, lanes)) => lanes_controller(rt, alloc, class, lanes, files, input, out),
    }
}

/// The class and the files of a run over two lanes, where the words ask for one.
fn lanes_asked(words: &[String]) -> Option<(Option<&str>, LaneFiles<'_>)>
    ensures some { IfSome result (λ asked. AskLanes (texts_of words.now)
        (option_map (λ c. c.now) asked.0) (lane_seen asked.1)) }
    ensures none { IfNone result (AskNoLanes (texts_of words.now)) }
{
    match controller_words(words) {
        Some(Asked::Lanes { class, files }) => Some((class, files)),
        None => None,
        Some(Asked::Run { .. }) => None,
        Some(Asked::Trial { .. }) => None,
    }
}
