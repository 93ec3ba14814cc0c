//! A run of two watched lanes: two watchers send the events of their sources, and a reconciler is
//! driven by them.
//!
//! What drives the reconciler, which events a lane may carry, and what is sent for each is the
//! program's own. What each lane sends, in which order it is driven, and how each lane ends is said
//! and proved here, once for all programs.
//!
//! The watchers stand in the second place of the joins: where no thread can be made, that place
//! runs first.
//!
//! `Lanes` wants `Send`, though no value of it is made: the watchers' closures name its type.
//!
//! A run over lanes takes a `PacedWait<K>` in place of a `Wait`: with a `Wait` any body could wait
//! for a lane while text is held back, and no clause would say so. The sink's type `K` belongs to
//! the trait, not to its calls: a body could else show them a sink of its own, write to that, and
//! pass the text on at the end.
//!
//! The files of such a run are `WatchedFiles` in place of `Files`: with a `Files` any body could
//! read both to their ends by itself, and write then. When a file may be opened is a premise, as of
//! when a lane may be waited for: a count of openings in `Files` would say as much, and cost each
//! file a field.
#![tactic(auto)]

mod lane_end;
mod lane_run;
mod lanes;
mod laws;
mod line_items;
mod paced;
mod reconciler;
mod reconciling;
mod running;
mod threads;
mod turner;
mod watched;
mod watching;

pub use lane_end::LaneEnd;
pub use lane_run::LaneRun;
pub use lanes::Lanes;
pub use laws::lanes_stop_first;
pub use paced::{MailWait, PacedWait};
pub use reconciler::Reconciler;
pub use running::{run_lanes, run_turned};
pub use turner::{Turner, Unturned};
pub use watched::{WatchPass, WatchedFiles, WatchedSource};
