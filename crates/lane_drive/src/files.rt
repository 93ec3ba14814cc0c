//! The run over two lane files.
ghost use Rattle.std.specs.Prelude.{◌≡◌, ℕ, List, Some, false};
ghost use Rattle.kube_model.specs.declared.status.LaneName.{LaneName as Name};
ghost use Rattle.lane_drive.specs.Asking.{AnswersAll, AsksMore, HasStopped};
ghost use Rattle.lane_drive.specs.Clauses.{AtDone, AtEnd, AtOpenFault, AtReadFault, LeavesInput};
ghost use Rattle.lane_drive.specs.Clauses.{LeavesOthers, OnlyWrites, unread};
ghost use Rattle.lane_drive.specs.Complete.{IsComplete};
ghost use Rattle.lane_drive.specs.Files.{files_state};
ghost use Rattle.lane_run.specs.Opening.{MayBeOpened};
ghost use Rattle.lane_run.specs.Outside.{lane_state, outside, source_state};
ghost use Rattle.lane_run.specs.Waiting.{MayBeAwaited};
ghost use Rattle.line_run.specs.Answered.{MayBeAsked};
ghost use Rattle.line_run.specs.Clauses.{AtWriteFault};

use crate::lane_machine::LaneMachine;
use crate::turned_files::run_turned_files;
use kube_model::Status;
use lane_run::{Lanes, MailWait, PacedWait, Unturned, WatchedFiles};
use line_run::PacedSource;
use mlb_edge::Sink;
use std::alloc::Global;
use std::thread::Threads;

/// Drives the machine by the items of the lines of both files, by turns where both have some; each
/// file's come in its order. Replies are the lines of `input`.
///
/// Both files are opened first, and handed back in the end. Of several reasons to stop the one is
/// answered that comes first: the first file isn't opened, the second isn't, a lane ends where
/// memory ran out, the machine stops at an item or a reply, the input isn't at its end after the
/// last reply, the first lane ends at a fault, the second does. A lane that ends at a fault doesn't
/// end the other, and what it sent before is taken all the same.
pub fn run_lane_files<
    M: LaneMachine + Lanes + Drop + Send,
    R: Threads + PacedWait<K> + MailWait + Sync,
    F: WatchedFiles,
    I: PacedSource<K> + Send,
    K: Sink + Send,
>(
    rt: &R,
    alloc: Global,
    first: &str,
    second: &str,
    files: &mut F,
    machine: M,
    input: &mut I,
    out: &mut K,
) -> Status
    requires quiet { M.rules.waits (M.state machine) ≡ false }

    // The first file may be opened, and once it is open the second. Nothing else is known of when a
    // file may, so the first is opened first, each at most once, and no other.
    requires opens { MayBeOpened F.may_open F.Opens files.old first.now second.now }

    // The source of the replies may be asked for more where all that was taken is answered, with
    // all replies that came, and a reply is awaited or both lanes have ended. Nothing else is known
    // of when it may. That a lane ended because its reading failed is possible where its file isn't
    // unfailing; where both are, it may be asked after all that both carry.
    requires live { MayBeAsked I.name I.may_read input.old
        (λ i r o. AsksMore M.belongs M.rules (M.state machine)
        (lane_state (F.bytes files.old first.now) (Some first.now) 0 (F.unfailing files.old first.now))
        (lane_state (F.bytes files.old second.now) (Some second.now) 0 (F.unfailing files.old second.now))
        (outside unread (source_state (I.left input.old) (I.name input.old) (I.faults input.old))
        (K.written out.old) (K.faults out.old))
        (outside r (source_state (I.left i) (I.name i) (I.faults i)) (K.written o) (K.faults o))) }

    // The next item may be waited for where just the text of all items taken before stands written,
    // with all replies to them heard. Nothing else is known of when it may, and it can be waited
    // for beside a sink of this type alone, so nothing is held back of `out` while a lane is waited
    // for.
    requires waits { MayBeAwaited R.may_wait rt.now K.written (AnswersAll M.rules (M.state machine)
        (outside unread (source_state (I.left input.old) (I.name input.old) (I.faults input.old))
        (K.written out.old) (K.faults out.old))) }

    // What the lanes still send may be dropped where the machine stopped at the last item taken, or
    // at a reply after it, and nowhere else.
    requires drops { MayBeAwaited R.may_drop rt.now K.written (HasStopped M.rules (M.state machine)
        (outside unread (source_state (I.left input.old) (I.name input.old) (I.faults input.old))
        (K.written out.old) (K.faults out.old))) }

    // How the run ended, once both files are open.
    ensures ended { AtEnd M.belongs M.rules (M.state machine) first.now second.now
        (files_state (F.failed_opens files.old) (F.failed_reads files.old))
        (files_state (F.failed_opens files.new) (F.failed_reads files.new))
        (lane_state (F.bytes files.old first.now) (Some first.now) 0 (F.unfailing files.old first.now))
        (lane_state (F.bytes files.old second.now) (Some second.now) 0 (F.unfailing files.old second.now))
        (source_state (I.left input.old) (I.name input.old) (I.faults input.old))
        (source_state (I.left input.new) (I.name input.new) (I.faults input.new))
        (K.written out.old) (K.written out.new) (K.faults out.old) (K.faults out.new) result }

    // Where it is done, all that both files carry was taken, with all lines of the input as
    // replies, and just its text was written.
    ensures done { AtDone M.belongs M.rules (M.state machine)
        (F.bytes files.old first.now) (F.bytes files.old second.now) result
        (I.left input.old) (I.left input.new) (K.written out.old) (K.written out.new) }

    // However it ends, a beginning of the text of some items was written. They are of each file a
    // beginning of what it carries, and the replies to them are the first lines of the input.
    ensures only { OnlyWrites M.belongs M.rules (M.state machine)
        (F.bytes files.old first.now) (F.bytes files.old second.now) (I.left input.old)
        (K.written out.old) (K.written out.new) }

    // Where each line of both files is an event of its lane, and in whatever order they come all
    // can be taken, with the lines of the input as the replies, and no count of faults rises, it is
    // done, unless memory runs out.
    ensures complete { IsComplete M.belongs M.rules (M.state machine)
        (F.bytes files.old first.now) (F.bytes files.old second.now) result
        (files_state (F.failed_opens files.old) (F.failed_reads files.old))
        (files_state (F.failed_opens files.new) (F.failed_reads files.new))
        (I.left input.old) (I.faults input.old) (I.faults input.new) (K.faults out.old)
        (K.faults out.new) }

    // A fault comes only where its count rose, and a file isn't opened exactly where its opening
    // failed.
    ensures open_fault { AtOpenFault M.rules.name first.now second.now result
        (files_state (F.failed_opens files.old) (F.failed_reads files.old))
        (files_state (F.failed_opens files.new) (F.failed_reads files.new)) }
    ensures read_fault { AtReadFault M.rules.name first.now second.now result
        (files_state (F.failed_opens files.old) (F.failed_reads files.old))
        (files_state (F.failed_opens files.new) (F.failed_reads files.new)) (I.faults input.old)
        (I.faults input.new) }
    ensures write_fault { AtWriteFault result (K.faults out.old) (K.faults out.new) }

    // Where a file isn't opened nothing is read or written; and where there are no replies nothing
    // is read of the input.
    ensures unopened { (lane : Name) → result ≡ Status.OpenFault lane → (input.new ≡ input.old)
        × (out.new ≡ out.old) }
    ensures unheard { M.rules.hears ≡ false → LeavesInput
        (source_state (I.left input.old) (I.name input.old) (I.faults input.old))
        (source_state (I.left input.new) (I.name input.new) (I.faults input.new)) }

    // Of no other file an opening or a reading failed.
    ensures others { LeavesOthers first.now second.now
        (files_state (F.failed_opens files.old) (F.failed_reads files.old))
        (files_state (F.failed_opens files.new) (F.failed_reads files.new)) }
    ensures bytes { (file : List ℕ) → F.bytes files.new file ≡ F.bytes files.old file }
{
    let (status, machine) = run_turned_files(
        rt,
        alloc,
        first,
        &mut Unturned,
        second,
        &mut Unturned,
        files,
        machine,
        input,
        out,
    );
    drop(machine);
    status
}
