//! What is done to a store.

use kube_model::{Key, Kind, Object};

/// How a put went.
#[derive(Clone, Copy)]
pub enum Outcome {
    /// It reached the store, and the reply came back.
    Delivered,
    /// No reply came back. The put reached the store if it is applied, and else it didn't.
    Lost { applied: bool },
    /// The store refused it for a reason of its own (in Kubernetes 403 or 422): nothing is stored,
    /// and the reply says that the put is stale.
    Refused,
}

/// A change that is made to a cluster's objects from outside.
#[derive(Drop)]
pub enum Edit {
    /// The object is created, or takes the place of the one of its kind and key.
    Set { object: Object },
    /// As `Set`, but a service has the record then that it is handed in with.
    Reset { object: Object },
    /// The object of this kind and key is deleted.
    Delete { kind: Kind, key: Key },
}
