//! What is told of a trial.

use ip_ranges::AddressList;
use kube_model::Key;
use mlb_base::Sequence;

/// The keys of services, each with the addresses that are recorded for it.
pub type RecordLines = Sequence<(Key, AddressList)>;

/// What a trial comes to.
#[derive(Drop)]
pub struct TrialReport {
    /// The services that are stored in the end, by key.
    pub records: RecordLines,
    /// How many puts the turns wanted, whatever their outcome, together with those of crashes that
    /// were applied.
    pub puts: u64,
    /// How many steps were drawn.
    pub steps: u32,
}
