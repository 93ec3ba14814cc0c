//! The Lease (Kubernetes' `coordination.k8s.io/v1`), as the controllers of a cluster share it.

use kube_labels::Text;
use kube_model::Key;
use mlb_base::{NoMemory, Sequence, TryCopy};

/// A service at a version (`metadata.resourceVersion`): a put that may be on its way is at one.
#[derive(Drop)]
pub struct ServiceVersion {
    pub key: Key,
    pub version: u64,
}

impl TryCopy for ServiceVersion {
    fn copy(&self) -> Result<ServiceVersion, NoMemory> {
        Ok(ServiceVersion {
            key: self.key.copy()?,
            version: self.version,
        })
    }
}

/// A list of them.
pub type ServiceVersions = Sequence<ServiceVersion>;

/// The Lease as the API server gave it.
#[derive(Drop)]
pub struct Lease {
    /// `metadata.resourceVersion`.
    pub version: u64,
    /// `spec.holderIdentity`.
    pub holder: Text,
    /// The puts that may be on their way.
    pub named: ServiceVersions,
}

/// A request that the Lease be one's own and name these, where it is at the version.
#[derive(Drop)]
pub struct Asked {
    pub at: u64,
    pub named: ServiceVersions,
}
