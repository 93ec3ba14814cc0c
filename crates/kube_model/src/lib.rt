//! The objects of a cluster, what happens to them, and what is written of them.
//!
//! The port of a service is a struct, `Port {protocol, port}`, where a pair would say less.
//!
//! The aggregation lengths of an advertisement are small types, `LengthV4` and `LengthV6`, so that
//! a value out of range can't be made.
//!
//! `Reason`, `Cause` and `ConfigFault` stand with the types of the cluster in `kube_model`, below
//! the core that finds them and the lines that tell them. The reading of a port, an allocation, an
//! endpoint, a selector, a protocol, a policy and a length stands with its type, since a trait's
//! impl must.
//!
//! Kinds of objects are defined by their public records; the groups in which they are read are tied
//! to that by a proof.
#![tactic(auto)]

mod allocation_fields;
mod bgp;
mod community;
mod config_fault;
mod copies;
mod endpoint_fields;
mod event;
mod families;
mod key;
mod l2;
mod lengths;
mod named;
mod namespace;
mod node;
mod object;
mod peer;
mod pool;
mod port;
mod port_fields;
mod put;
mod reason;
mod record;
mod reply;
mod selector;
mod selector_fields;
mod service;
mod slice;
mod status;

pub use bgp::BgpAdv;
pub use community::CommunityList;
pub use config_fault::{Cause, ConfigFault};
pub use copies::both;
pub use event::{Event, EventFault, ListGroup};
pub use families::FamilyList;
pub use key::Key;
pub use kube_labels::{ExpressionList, Labels, Text, TextList};
pub use l2::L2Adv;
pub use lengths::{LengthV4, LengthV6};
pub use namespace::Namespace;
pub use node::Node;
pub use object::{Kind, Object, ObjectList};
pub use peer::BgpPeer;
pub use pool::{Allocation, Pool};
pub use port::{Port, PortList, Protocol};
pub use put::Put;
pub use reason::Reason;
pub use record::Record;
pub use reply::PutReply;
pub use selector::{SelectorText, SelectorTexts};
pub use service::{Policy, Service, Wanted};
pub use slice::{Endpoint, EndpointList, EndpointSlice};
pub use status::{LaneName, Status, What};
