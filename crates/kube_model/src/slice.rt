//! The endpoints of services.

use crate::copies::{both, copied};
use crate::key::Key;
use kube_labels::Text;
use mlb_base::{NoMemory, Sequence, TryCopy};

/// A Kubernetes EndpointSlice.
pub struct EndpointSlice {
    pub key: Key,
    /// The label `kubernetes.io/service-name`, empty where it is absent.
    pub service: Text,
    pub endpoints: EndpointList,
}

impl Drop for EndpointSlice {
    fn drop(self) {
        let EndpointSlice {
            key: _,
            service: _,
            endpoints: _,
        } = self;
    }
}

/// One of the endpoints.
pub struct Endpoint {
    /// `nodeName`.
    pub node: Option<Text>,
    /// `conditions.serving` where it is there, else `conditions.ready` where it is there, else true.
    pub usable: bool,
}

impl Drop for Endpoint {
    fn drop(self) {
        let Endpoint { node: _, usable: _ } = self;
    }
}

/// A list of endpoints.
pub type EndpointList = Sequence<Endpoint>;

impl TryCopy for Endpoint {
    fn copy(&self) -> Result<Endpoint, NoMemory> {
        Ok(Endpoint {
            node: self.node.copy()?,
            usable: self.usable,
        })
    }
}

impl TryCopy for EndpointSlice {
    fn copy(&self) -> Result<EndpointSlice, NoMemory> {
        let names = copied(&self.key, &self.service);
        let ((key, service), endpoints) = both(names, self.endpoints.copy())?;
        Ok(EndpointSlice {
            key,
            service,
            endpoints,
        })
    }
}
