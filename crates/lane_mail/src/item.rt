//! What a lane carries.

use crate::lane::Lane;
use kube_model::Event;

/// An event, with the lane that it came by.
#[derive(Drop)]
pub struct Item {
    pub lane: Lane,
    /// The number of the event's line in its lane.
    pub number: u64,
    pub event: Event,
}
