//! The run over two lane files.
ghost use Rattle.std.specs.Prelude.{◌≡◌, ◌≢◌, ℕ, List};
ghost use Rattle.std.specs.Option.{option_map};
ghost use Rattle.command_options.specs.Lanes.{lane_seen};
ghost use Rattle.kube_model.specs.declared.status.LaneName.{LaneName};
ghost use Rattle.lane_drive.specs.Files.{files_state};
ghost use Rattle.lane_run.specs.Outside.{source_state};
ghost use Rattle.line_run.specs.Clauses.{AtWriteFault};
ghost use Rattle.controller_run.specs.LaneClauses.{LanesMayAsk, LanesMayOpen, LanesMayWait};
ghost use Rattle.controller_run.specs.LaneClauses.{LanesMayDrop, LanesEnd, LanesComplete};
ghost use Rattle.controller_run.specs.LaneClauses.{LanesDone, LanesSafe, LanesSound, LanesQuiet};
ghost use Rattle.controller_run.specs.LaneClauses.{CanEndLanes, LaneOpenFault, LaneReadFault};
ghost use Rattle.controller_run.specs.LaneClauses.{LaneOthers};

use crate::controller::Controller;
use command_options::LaneFiles;
use kube_model::Status;
use lane_drive::run_lane_files;
use lane_run::{MailWait, PacedWait, WatchedFiles};
use line_run::PacedSource;
use mlb_edge::Sink;
use std::alloc::Global;
use std::thread::Threads;

/// The run over two files, that of the configuration and that of the services, for the services of
/// the class. The lines of the input are the replies to its puts.
pub(crate) fn lanes_controller<
    R: Threads + PacedWait<K> + MailWait + Sync,
    F: WatchedFiles,
    S: PacedSource<K> + Send,
    K: Sink + Send,
>(
    rt: &R,
    alloc: Global,
    class: Option<&str>,
    lanes: LaneFiles<'_>,
    files: &mut F,
    input: &mut S,
    out: &mut K,
) -> Status
    requires opens { LanesMayOpen F.may_open F.Opens files.old (option_map (λ c. c.now) class)
        (lane_seen lanes) }
    requires live { LanesMayAsk (F.bytes files.old)
        (F.unfailing files.old) S.name S.left S.faults S.may_read K.written K.faults input.old
        out.old
        (option_map (λ c. c.now) class) (lane_seen lanes) }
    requires waits { LanesMayWait R.may_wait rt.now
        (source_state (S.left input.old) (S.name input.old) (S.faults input.old)) K.written K.faults out.old
        (option_map (λ c. c.now) class) (lane_seen lanes) }
    requires drops { LanesMayDrop R.may_drop rt.now
        (source_state (S.left input.old) (S.name input.old) (S.faults input.old)) K.written K.faults out.old
        (option_map (λ c. c.now) class) (lane_seen lanes) }
    ensures ended { LanesEnd (F.bytes files.old) (F.unfailing files.old)
        (files_state (F.failed_opens files.old) (F.failed_reads files.old))
        (files_state (F.failed_opens files.new) (F.failed_reads files.new))
        (source_state (S.left input.old) (S.name input.old) (S.faults input.old))
        (source_state (S.left input.new) (S.name input.new) (S.faults input.new))
        (K.written out.old) (K.written out.new) (K.faults out.old) (K.faults out.new) result
        (option_map (λ c. c.now) class.entry) (lane_seen lanes.entry) }
    ensures can_end { CanEndLanes result }
    ensures done { LanesDone (F.bytes files.old) result
        (S.left input.old) (S.left input.new) (K.written out.old) (K.written out.new)
        (option_map (λ c. c.now) class.entry) (lane_seen lanes.entry) }
    ensures quiet { LanesQuiet (F.bytes files.old) result
        (S.left input.old) (S.left input.new) (K.written out.old) (K.written out.new)
        (option_map (λ c. c.now) class.entry) (lane_seen lanes.entry) }
    ensures sound { LanesSound (F.bytes files.old) (S.left input.old) (K.written out.old)
        (K.written out.new)
        (option_map (λ c. c.now) class.entry) (lane_seen lanes.entry) }
    ensures safe { LanesSafe (F.bytes files.old) (S.left input.old) (K.written out.old)
        (K.written out.new)
        (option_map (λ c. c.now) class.entry) (lane_seen lanes.entry) }
    ensures open_fault { LaneOpenFault result
        (files_state (F.failed_opens files.old) (F.failed_reads files.old))
        (files_state (F.failed_opens files.new) (F.failed_reads files.new))
        (option_map (λ c. c.now) class.entry) (lane_seen lanes.entry) }
    ensures read_fault { LaneReadFault result
        (files_state (F.failed_opens files.old) (F.failed_reads files.old))
        (files_state (F.failed_opens files.new) (F.failed_reads files.new)) (S.faults input.old) (S.faults input.new)
        (option_map (λ c. c.now) class.entry) (lane_seen lanes.entry) }
    ensures write_fault { AtWriteFault result (K.faults out.old) (K.faults out.new) }
    ensures complete { LanesComplete (F.bytes files.old) result
        (files_state (F.failed_opens files.old) (F.failed_reads files.old))
        (files_state (F.failed_opens files.new) (F.failed_reads files.new))
        (S.left input.old) (S.faults input.old) (S.faults input.new) (K.faults out.old) (K.faults out.new)
        (option_map (λ c. c.now) class.entry) (lane_seen lanes.entry) }
    ensures unopened { (lane : LaneName) → result ≡ Status.OpenFault lane → (input.new ≡ input.old)
        × (out.new ≡ out.old) }
    ensures others { LaneOthers
        (files_state (F.failed_opens files.old) (F.failed_reads files.old))
        (files_state (F.failed_opens files.new) (F.failed_reads files.new))
        (option_map (λ c. c.now) class.entry) (lane_seen lanes.entry) }
    ensures bytes { (file : List ℕ) → F.bytes files.new file ≡ F.bytes files.old file }
{
    let Ok(controller) = Controller::new(alloc, class) else {
        return Status::NoMemory;
    };
    run_lane_files(
        rt,
        alloc,
        lanes.first,
        lanes.second,
        files,
        controller,
        input,
        out,
    )
}
