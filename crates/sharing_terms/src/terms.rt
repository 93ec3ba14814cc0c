//! Terms.
ghost use Rattle.std.specs.Prelude.{◌≡◌, IfOk};
ghost use Rattle.sharing_terms.specs.Ports.{ArePortsOf};
ghost use Rattle.sharing_terms.specs.Terms.{terms_of, backend_of};

use crate::port_set::PortSet;
use kube_labels::{Labels, Text};
use kube_model::{Policy, Service, both};
use mlb_base::{NoMemory, TryCopy};
use std::alloc::Global;

/// Where the traffic of a service goes.
#[derive(Drop)]
pub enum Backend {
    /// To any endpoint of the cluster.
    Cluster,
    /// To the endpoints of the node alone: those that the selector chooses in the namespace.
    Local { namespace: Text, selector: Labels },
}

/// The terms under which a service holds addresses.
pub struct Terms {
    /// The sharing key, empty for none.
    pub key: Text,
    pub ports: PortSet,
    pub backend: Backend,
}

impl Drop for Terms {
    fn drop(self) {
        let Terms {
            key: _,
            ports: _,
            backend: _,
        } = self;
    }
}

impl TryCopy for Backend {
    fn copy(&self) -> Result<Backend, NoMemory> {
        match self {
            Backend::Cluster => Ok(Backend::Cluster),
            Backend::Local {
                namespace,
                selector,
            } => {
                let (namespace, selector) = both(namespace.copy(), selector.copy())?;
                Ok(Backend::Local {
                    namespace,
                    selector,
                })
            }
        }
    }
}

impl TryCopy for Terms {
    fn copy(&self) -> Result<Terms, NoMemory> {
        let given = both(self.ports.copy(), self.backend.copy());
        let (key, (ports, backend)) = both(self.key.copy(), given)?;
        Ok(Terms {
            key,
            ports,
            backend,
        })
    }
}

fn backend_of(service: &Service) -> Result<Backend, NoMemory>
    ensures { IfOk result (λ backend. backend ≡ backend_of service.now) }
{
    match service.policy {
        Policy::Cluster => Ok(Backend::Cluster),
        Policy::Local => {
            let (namespace, selector) = both(
                service.key.namespace.copy(),
                service.selector.copy(),
            )?;
            Ok(Backend::Local {
                namespace,
                selector,
            })
        }
    }
}

/// The terms that the service has now: its annotation `metallb.io/allow-shared-ip`, its ports, each
/// once, and where its external traffic policy sends its traffic.
pub fn terms_of(alloc: Global, service: &Service) -> Result<Terms, NoMemory>
    ensures value { IfOk result (λ terms. terms ≡ terms_of service.now) }
    ensures ports { IfOk result (λ terms. ArePortsOf service.now.ports terms.ports) }
{
    Ok(Terms {
        key: service.share_key.copy()?,
        ports: PortSet::of(alloc, service.ports.as_slice())?,
        backend: backend_of(service)?,
    })
}
