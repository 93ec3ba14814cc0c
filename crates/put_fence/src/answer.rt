//! What a fence is told.

use crate::lease::Lease;
use kube_model::Put;

/// An answer of the API server to the request that is under way.
#[derive(Drop)]
pub enum Answer {
    /// The Lease as it is, to a request that reads or changes it (200).
    Lease { lease: Lease },
    /// The service is at this version: to a request that reads it, or that it be changed and was
    /// (200).
    At { version: u64 },
    /// The list of services is given from now on.
    Listed,
    /// There is no such object (404).
    Missing,
    /// Anything else, as a conflict (409) or a want of rights (403).
    Refused,
    /// No answer came: whether the request was carried out, or will be, isn't known.
    Unknown,
}

/// What a fence is told.
#[derive(Drop)]
pub enum Input {
    /// It is time to read the Lease.
    Tick,
    /// It is time to change the Lease, so that others see that its holder lives.
    Renew,
    /// The Lease counts as given up, which has stayed at this version.
    Lapsed { version: u64 },
    /// It is time to fence a put that is owed.
    Chase,
    /// The services are to be listed anew. That is done where nothing is owed and no request is
    /// under way, and is to be told again until then.
    Relist,
    /// The program wants a put.
    Put { put: Put },
    /// What was asked for is answered.
    Answer { answer: Answer },
}
