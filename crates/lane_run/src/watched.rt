//! Sources and files that are watched, and read in no other way.
ghost use Rattle.std.specs.Prelude.{◌≡◌, ◌≢◌, ⊤, ℕ, Bool, List, Option, Some, OnOk, OnErr, IfOk};
ghost use Rattle.std.specs.Prelude.{IsOk, IsErrOf};
ghost use Rattle.lane_run.specs.Outside.{lane_state};
ghost use Rattle.lane_run.specs.Turned.{CanWatch, Watched};
ghost use Rattle.mlb_edge.specs.Failed.{CountsFault, IsOpened, with_failed, with_closed};

use crate::lane_end::LaneEnd;
use crate::lanes::Lanes;
use crate::paced::MailWait;
use crate::turner::Turner;
use crate::watching::watch;
use lane_mail::{Lane, LaneDone, LanePass, Mail};
use mlb_base::NoMemory;
use mlb_edge::{Files, OpenEnd, Source};
use std::alloc::Global;
use std::marker::Model;

/// The right to watch a lane, which contracts see as the lane's pass until it was watched.
/// `run_turned` alone makes one, so lanes are watched nowhere but beside their reconciler.
#[derive(Drop)]
pub struct WatchPass {
    pub(crate) pass: Option<LanePass>,
}

impl Model for WatchPass {
    ghost use Rattle.std.specs.Prelude.{Option};
    ghost use Rattle.lane_mail.specs.Values.{Sender};

    ghost Value = { Option Sender };

    ghost view = { λ w. w.pass };
}

/// A source of a lane's lines that can only be watched: each event that is read of it goes to the
/// mail of the lanes.
///
/// What is generic over it has no other way to read the lane than to take from the mail, which it
/// shows that it may at each item (`PacedWait::take_next`).
pub trait WatchedSource {
    /// The bytes not yet read, where the source tells them.
    ghost left: { Self → Option (List ℕ) };

    /// A text that no read changes, where the source has one.
    ghost name: { Self → Option (List ℕ) };

    /// How often reading has failed.
    ghost faults: { Self → ℕ };

    /// It is known that no read fails. No read changes this.
    ghost unfailing: { Self → Bool };

    /// Sends what the events of its lines are turned into, until it ends or something stops it, and
    /// then puts the lane's end mark.
    fn watch<L: Lanes, T: Turner, R: MailWait>(
        &mut self,
        rt: &R,
        alloc: Global,
        lane: Lane,
        mail: &Mail,
        pass: &mut WatchPass,
        turner: &mut T,
    ) -> (LaneDone, LaneEnd)
        requires { CanWatch mail.now lane pass.old }
        ensures { Watched T.Turns L.belongs lane mail.now
            (lane_state (left self.old) (name self.old) (faults self.old) (unfailing self.old))
            (lane_state (left self.new) (name self.new) (faults self.new) (unfailing self.new))
            (T.state turner.old) (T.state turner.new) result.0 result.1 };
}

/// Each source can be watched.
impl<S: Source> WatchedSource for S {
    ghost left = { S.left };

    ghost name = { S.name };

    ghost faults = { S.faults };

    ghost unfailing = { S.unfailing };

    fn watch<L: Lanes, T: Turner, R: MailWait>(
        &mut self,
        rt: &R,
        alloc: Global,
        lane: Lane,
        mail: &Mail,
        pass: &mut WatchPass,
        turner: &mut T,
    ) -> (LaneDone, LaneEnd) {
        watch::<L, T, R, S>(rt, alloc, lane, mail, pass, turner, self)
    }
}

/// Files that are opened by name and handed back, as `Files`, and can only be watched in between. A
/// file may be opened only at times, as a pipe, whose opening waits until something has opened its
/// other end.
///
/// What is generic over them shows at each call of `open` that this file may be opened now, and it
/// knows of no other time than the one that it was told.
pub trait WatchedFiles {
    type In: WatchedSource + Send;

    /// The names whose opening failed, in order.
    ghost failed_opens: { Self → List (List ℕ) };

    /// The names of the inputs whose reading failed, in order.
    ghost failed_reads: { Self → List (List ℕ) };

    /// The bytes of the file of a name, where they are told.
    ghost bytes: { Self → List ℕ → Option (List ℕ) };

    /// It is known that no reading of the file of a name fails.
    ghost unfailing: { Self → List ℕ → Bool };

    /// The file of this name may be opened now.
    ghost may_open: { Self → List ℕ → Type 0 };

    /// The file of this name was opened, which led from the one to the other.
    ghost Opens: { Self → Self → List ℕ → Type 0 };

    /// `Files::open`.
    fn open(&mut self, name: &str) -> Result<Self::In, OpenEnd>
        requires paced { may_open self.old name.now }
        ensures leads { OnOk result (Opens self.old self.new name.now) }
        ensures opened { IfOk result (λ input.
            IsOpened (Self.In.name input) (Self.In.left input) (Self.In.faults input) (Self.In.unfailing input)
            name.now (bytes self.old name.now) (unfailing self.old name.now)) }
        ensures opens { failed_opens self.new
            ≡ with_failed (failed_opens self.old) name.now result }
        ensures faults { CountsFault (Some name.now) (IsErrOf result OpenEnd.Failed)
            (failed_opens self.old) (failed_opens self.new) }
        ensures reads { failed_reads self.new ≡ failed_reads self.old }
        ensures bytes { (file : List ℕ) → bytes self.new file ≡ bytes self.old file }
        ensures unfailing { (file : List ℕ) → unfailing self.new file ≡ unfailing self.old file };

    /// `Files::close`.
    fn close(&mut self, input: Self::In) -> Result<(), NoMemory>
        ensures bytes { (file : List ℕ) → bytes self.new file ≡ bytes self.old file }
        ensures unfailing { (file : List ℕ) → unfailing self.new file ≡ unfailing self.old file }
        ensures opens { failed_opens self.new ≡ failed_opens self.old }
        ensures faults { CountsFault (Self.In.name input) (IsOk result × (Self.In.faults input ≢ 0))
            (failed_reads self.old) (failed_reads self.new) }
        ensures ok { OnOk result (failed_reads self.new
            ≡ with_closed (failed_reads self.old) (Self.In.name input) (Self.In.faults input)) }
        ensures err { OnErr result (failed_reads self.new ≡ failed_reads self.old) };
}

/// All files can be watched, and opened at any time.
impl<F: Files> WatchedFiles for F {
    type In = F::In;

    ghost failed_opens = { F.failed_opens };

    ghost failed_reads = { F.failed_reads };

    ghost bytes = { F.bytes };

    ghost unfailing = { F.unfailing };

    ghost may_open = { λ _ _. ⊤ };

    ghost Opens = { λ _ _ _. ⊤ };

    fn open(&mut self, name: &str) -> Result<F::In, OpenEnd> {
        <F as Files>::open(self, name)
    }

    fn close(&mut self, input: F::In) -> Result<(), NoMemory> {
        <F as Files>::close(self, input)
    }
}
