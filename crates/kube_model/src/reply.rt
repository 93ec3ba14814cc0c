//! What a put is answered.

/// The outcome of a put.
#[derive(Clone, Copy)]
pub enum PutReply {
    /// The record was replaced, and the service has this version now.
    Ok { version: u64 },
    /// The service is there with another version, and nothing was changed.
    Stale,
    /// The service isn't there.
    Missing,
    /// Whether the record was replaced is not known.
    Unknown,
}
