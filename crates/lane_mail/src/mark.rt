//! The end of a lane.

use crate::lane::Lane;

/// The lane has ended, after so many items.
#[derive(Clone, Copy)]
pub struct Mark {
    pub lane: Lane,
    pub count: u64,
}
