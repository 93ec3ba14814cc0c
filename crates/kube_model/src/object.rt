//! The objects that are watched.
ghost use Rattle.std.specs.Prelude.{◌≡◌};
ghost use Rattle.kube_model.specs.Kinds.{kind_of, group_of};
ghost use Rattle.kube_model.specs.Named.{kind_named};
ghost use Rattle.kube_model.specs.LineWords.{kind_text};

use crate::bgp::BgpAdv;
use crate::community::CommunityList;
use crate::event::ListGroup;
use crate::l2::L2Adv;
use crate::namespace::Namespace;
use crate::node::Node;
use crate::peer::BgpPeer;
use crate::pool::Pool;
use crate::service::Service;
use crate::slice::EndpointSlice;
use mlb_base::{NoMemory, Sequence, TryCopy};

/// An object of one of the kinds that are read.
#[derive(Drop)]
pub enum Object {
    Service(Service),
    Pool(Pool),
    L2(L2Adv),
    Bgp(BgpAdv),
    Peer(BgpPeer),
    Community(CommunityList),
    Namespace(Namespace),
    Node(Node),
    Slice(EndpointSlice),
}

/// The kinds of objects that are read.
#[derive(Clone, Copy, Debug)]
pub enum Kind {
    Service,
    Pool,
    L2,
    Bgp,
    Peer,
    Community,
    Namespace,
    Node,
    Slice,
}

/// A list of objects.
pub type ObjectList = Sequence<Object>;

impl Object {
    pub fn kind(&self) -> Kind
        ensures { result ≡ kind_of self.now }
    {
        match self {
            Object::Service(_) => Kind::Service,
            Object::Pool(_) => Kind::Pool,
            Object::L2(_) => Kind::L2,
            Object::Bgp(_) => Kind::Bgp,
            Object::Peer(_) => Kind::Peer,
            Object::Community(_) => Kind::Community,
            Object::Namespace(_) => Kind::Namespace,
            Object::Node(_) => Kind::Node,
            Object::Slice(_) => Kind::Slice,
        }
    }
}

impl Kind {
    /// The kind that Kubernetes has this name for, if it is one that is read.
    pub fn named(name: &str) -> Option<Kind>
        ensures { result ≡ kind_named name.now }
    {
        match name {
            "Service" => Some(Kind::Service),
            "IPAddressPool" => Some(Kind::Pool),
            "L2Advertisement" => Some(Kind::L2),
            "BGPAdvertisement" => Some(Kind::Bgp),
            "BGPPeer" => Some(Kind::Peer),
            "Community" => Some(Kind::Community),
            "Namespace" => Some(Kind::Namespace),
            "Node" => Some(Kind::Node),
            "EndpointSlice" => Some(Kind::Slice),
            _ => None,
        }
    }

    /// The list that objects of this kind come in.
    pub fn group(self) -> ListGroup
        ensures { result ≡ group_of self }
    {
        match self {
            Kind::Service => ListGroup::Service,
            Kind::Slice => ListGroup::Endpoint,
            Kind::Pool
            | Kind::L2
            | Kind::Bgp
            | Kind::Peer
            | Kind::Community
            | Kind::Namespace
            | Kind::Node => ListGroup::Config,
        }
    }

    /// The name that Kubernetes has for it.
    pub fn as_str(self) -> &'static str
        ensures { result.now ≡ kind_text self }
    {
        match self {
            Kind::Service => "Service",
            Kind::Pool => "IPAddressPool",
            Kind::L2 => "L2Advertisement",
            Kind::Bgp => "BGPAdvertisement",
            Kind::Peer => "BGPPeer",
            Kind::Community => "Community",
            Kind::Namespace => "Namespace",
            Kind::Node => "Node",
            Kind::Slice => "EndpointSlice",
        }
    }
}

impl TryCopy for Object {
    fn copy(&self) -> Result<Object, NoMemory> {
        Ok(match self {
            Object::Service(service) => Object::Service(service.copy()?),
            Object::Pool(pool) => Object::Pool(pool.copy()?),
            Object::L2(advertisement) => Object::L2(advertisement.copy()?),
            Object::Bgp(advertisement) => Object::Bgp(advertisement.copy()?),
            Object::Peer(peer) => Object::Peer(peer.copy()?),
            Object::Community(community) => Object::Community(community.copy()?),
            Object::Namespace(namespace) => Object::Namespace(namespace.copy()?),
            Object::Node(node) => Object::Node(node.copy()?),
            Object::Slice(slice) => Object::Slice(slice.copy()?),
        })
    }
}
