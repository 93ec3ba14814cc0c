//! Sets of ports.
ghost use Rattle.std.specs.Prelude.{◌≡◌, IfOk};
ghost use Rattle.sharing_terms.specs.Ports.{AreAscending, ports_in, ArePortsOf};

use kube_model::{Port, PortList};
use mlb_base::{NoMemory, Sequence, TryCopy};
use std::alloc::Global;
use std::collections::BTreeSet;
use std::marker::Model;

/// Ports of protocols, distinct and ascending: TCP before UDP before SCTP, and by number. Contracts
/// see their list.
pub struct PortSet {
    ports: PortList,
}

impl Drop for PortSet {
    fn drop(self) {
        let PortSet { ports: _ } = self;
    }
}

impl Model for PortSet {
    ghost use Rattle.std.specs.Prelude.{List};
    ghost use Rattle.kube_model.specs.declared.port.Port.{Port};
    ghost use Rattle.sharing_terms.specs.Ports.{AreAscending};

    ghost Value = { List Port };

    ghost view = { λ p. p.ports };

    ghost invariant = { λ p. AreAscending p.ports };
}

/// The ports, each once, ascending.
fn sorted(alloc: Global, ports: &[Port]) -> Result<BTreeSet<Port>, NoMemory>
    ensures { IfOk result (λ set. set.keys ≡ ports_in ports.now) }
{
    let mut set = BTreeSet::new(alloc);
    for port in ports {
        set.insert(*port)?;
    }
    Ok(set)
}

impl PortSet {
    fn collected(alloc: Global, ports: &[Port]) -> Result<PortSet, NoMemory>
        ensures { IfOk result (λ set. set ≡ ports_in ports.now) }
    {
        let set = sorted(alloc, ports)?;
        let mut ports = PortList::new(alloc);
        for port in &set {
            ports.push(*port)?;
        }
        Ok(PortSet { ports })
    }

    /// The ports of the list, each once.
    pub fn of(alloc: Global, ports: &[Port]) -> Result<PortSet, NoMemory>
        ensures value { IfOk result (λ set. set ≡ ports_in ports.now) }
        ensures ports { IfOk result (ArePortsOf ports.now) }
    {
        PortSet::collected(alloc, ports)
    }

    /// The ports, ascending.
    pub fn as_slice(&self) -> &[Port]
        ensures listed { result.now ≡ self.now }
        ensures ascending { AreAscending self.now }
    {
        self.ports.as_slice()
    }
}

impl TryCopy for PortSet {
    fn copy(&self) -> Result<PortSet, NoMemory> {
        Ok(PortSet {
            ports: self.ports.copy()?,
        })
    }
}
