//! Services.

ghost use Rattle.std.specs.Prelude.{◌≡◌, IfOk};
ghost use Rattle.std.specs.Option.{option_copied};
ghost use Rattle.kube_model.specs.Service.{is_handled, same_class};

use crate::copies::{both, copied};
use crate::families::FamilyList;
use crate::key::Key;
use crate::port::PortList;
use crate::record::Record;
use ip_ranges::AddressList;
use kube_labels::{Labels, Text};
use mlb_base::{NoMemory, TryCopy};

/// The addresses that a service asks for.
#[derive(Drop)]
pub enum Wanted {
    NotAsked,
    /// Addresses are asked, and one of them can't be read.
    Unreadable,
    Asked { addresses: AddressList },
}

/// Which endpoints external traffic reaches: `spec.externalTrafficPolicy`.
#[derive(Clone, Copy, Debug)]
pub enum Policy {
    Cluster,
    Local,
}

/// A Kubernetes Service, as far as addresses are concerned.
pub struct Service {
    pub key: Key,
    pub labels: Labels,
    /// Whether `spec.type` is LoadBalancer.
    pub balancer: bool,
    /// `spec.loadBalancerClass`.
    pub class: Option<Text>,
    /// `spec.ipFamilies`.
    pub families: FamilyList,
    /// Whether `spec.ipFamilyPolicy` is PreferDualStack.
    pub prefer_dual: bool,
    pub policy: Policy,
    /// `spec.selector`.
    pub selector: Labels,
    /// `spec.ports`, in its order.
    pub ports: PortList,
    /// The annotation `metallb.io/allow-shared-ip`, empty where it is absent.
    pub share_key: Text,
    /// The annotation `metallb.io/address-pool`, empty where it is absent.
    pub pool_asked: Text,
    /// The annotation `metallb.io/loadBalancerIPs`, or `spec.loadBalancerIP`.
    pub wanted: Wanted,
    /// What its status and its annotations record.
    pub holding: Record,
}

impl Drop for Service {
    fn drop(self) {
        let Service {
            key: _,
            labels: _,
            balancer: _,
            class: _,
            families: _,
            prefer_dual: _,
            policy: _,
            selector: _,
            ports: _,
            share_key: _,
            pool_asked: _,
            wanted: _,
            holding: _,
        } = self;
    }
}

impl TryCopy for Wanted {
    fn copy(&self) -> Result<Wanted, NoMemory> {
        match self {
            Wanted::NotAsked => Ok(Wanted::NotAsked),
            Wanted::Unreadable => Ok(Wanted::Unreadable),
            Wanted::Asked { addresses } => Ok(Wanted::Asked {
                addresses: addresses.copy()?,
            }),
        }
    }
}

impl TryCopy for Service {
    fn copy(&self) -> Result<Service, NoMemory> {
        let parts = both(copied_names(self), copied_traffic(self));
        let ((names, traffic), request) = both(parts, copied_request(self))?;
        let ((key, labels), class) = names;
        let ((families, selector), ports) = traffic;
        let ((share_key, pool_asked), (wanted, holding)) = request;
        Ok(Service {
            key,
            labels,
            balancer: self.balancer,
            class,
            families,
            prefer_dual: self.prefer_dual,
            policy: self.policy,
            selector,
            ports,
            share_key,
            pool_asked,
            wanted,
            holding,
        })
    }
}

/// Copies of the key, the labels and the class.
fn copied_names(service: &Service) -> Result<((Key, Labels), Option<Text>), NoMemory>
    ensures key { IfOk result (λ names. names.0.0 ≡ service.now.key) }
    ensures labels { IfOk result (λ names. names.0.1 ≡ service.now.labels) }
    ensures class { IfOk result (λ names. names.1 ≡ service.now.class) }
{
    let names = copied(&service.key, &service.labels);
    both(names, service.class.copy())
}

/// Copies of the families, the selector and the ports.
fn copied_traffic(service: &Service) -> Result<((FamilyList, Labels), PortList), NoMemory>
    ensures families { IfOk result (λ traffic. traffic.0.0 ≡ service.now.families) }
    ensures selector { IfOk result (λ traffic. traffic.0.1 ≡ service.now.selector) }
    ensures ports { IfOk result (λ traffic. traffic.1 ≡ service.now.ports) }
{
    let traffic = copied(&service.families, &service.selector);
    both(traffic, service.ports.copy())
}

/// Copies of the sharing key, of the pool and the addresses that are asked for, and of the record.
fn copied_request(service: &Service) -> Result<((Text, Text), (Wanted, Record)), NoMemory>
    ensures share_key { IfOk result (λ request. request.0.0 ≡ service.now.share_key) }
    ensures pool_asked { IfOk result (λ request. request.0.1 ≡ service.now.pool_asked) }
    ensures wanted { IfOk result (λ request. request.1.0 ≡ service.now.wanted) }
    ensures holding { IfOk result (λ request. request.1.1 ≡ service.now.holding) }
{
    let texts = copied(&service.share_key, &service.pool_asked);
    let others = copied(&service.wanted, &service.holding);
    both(texts, others)
}

impl Service {
    /// Whether this controller gives it addresses: it is of type LoadBalancer, and of the class
    /// that the controller handles; with no class configured, of none.
    pub fn is_handled(&self, class: Option<&Text>) -> bool
        ensures { result ≡ is_handled (option_copied class.entry) self.now }
    {
        self.balancer && same_class(class, self.class.as_ref())
    }
}

fn same_class(a: Option<&Text>, b: Option<&Text>) -> bool
    ensures { result ≡ same_class (option_copied a.entry) (option_copied b.entry) }
{
    match (a, b) {
        (None, None) => true,
        (Some(a), Some(b)) => a == b,
        _ => false,
    }
}
