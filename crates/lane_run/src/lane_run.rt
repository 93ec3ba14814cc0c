//! How a run of two lanes ended.

use crate::lane_end::LaneEnd;
use kube_model::Status;

/// How the reconciler and both lanes ended.
#[derive(Drop)]
pub struct LaneRun {
    /// `Ok` where the reconciler was driven by each item that it took, and else the status of its refusal.
    pub outcome: Result<(), Status>,
    pub first: LaneEnd,
    pub second: LaneEnd,
}
