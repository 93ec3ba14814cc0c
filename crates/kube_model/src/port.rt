//! The ports of services.

use mlb_base::{NoMemory, Sequence, TryCopy};

/// A transport protocol. TCP comes before UDP, and UDP before SCTP.
#[derive(Clone, Copy, Debug, PartialEq, Eq, PartialOrd, Ord)]
pub enum Protocol {
    Tcp,
    Udp,
    Sctp,
}

/// A port of a protocol. Ports are ordered by protocol, then by number.
#[derive(Clone, Copy, PartialEq, Eq, PartialOrd, Ord)]
pub struct Port {
    pub protocol: Protocol,
    pub port: u16,
}

/// A list of ports.
pub type PortList = Sequence<Port>;

impl TryCopy for Port {
    fn copy(&self) -> Result<Port, NoMemory> {
        Ok(*self)
    }
}
