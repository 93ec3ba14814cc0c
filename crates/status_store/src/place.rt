//! The order of objects: by kind, then by key.
ghost use Rattle.std.specs.Prelude.{◌≡◌};
ghost use Rattle.status_store.specs.Places.{key_of, kind_cmp, place_of, place_cmp};

use kube_model::{Key, Kind, Object};
use std::cmp::Ordering;

fn parts_of(key: &Key) -> (&str, &str)
    ensures namespace { result.0.now ≡ key.now.namespace }
    ensures name { result.1.now ≡ key.now.name }
{
    (key.namespace.as_str(), key.name.as_str())
}

/// The namespace and the name of the object's key.
pub fn key_parts(object: &Object) -> (&str, &str)
    ensures namespace { result.0.now ≡ (key_of object.now).namespace }
    ensures name { result.1.now ≡ (key_of object.now).name }
{
    match object {
        Object::Service(service) => parts_of(&service.key),
        Object::Pool(pool) => ("", pool.name.as_str()),
        Object::L2(advertisement) => ("", advertisement.name.as_str()),
        Object::Bgp(advertisement) => ("", advertisement.name.as_str()),
        Object::Peer(peer) => ("", peer.name.as_str()),
        Object::Community(community) => ("", community.name.as_str()),
        Object::Namespace(namespace) => ("", namespace.name.as_str()),
        Object::Node(node) => ("", node.name.as_str()),
        Object::Slice(slice) => parts_of(&slice.key),
    }
}

fn kind_order(a: Kind, b: Kind) -> Ordering
    ensures { result ≡ kind_cmp a b }
{
    (a as u8).cmp(&(b as u8))
}

/// How the object is ordered against that of this kind, namespace and name.
pub fn order(object: &Object, kind: Kind, namespace: &str, name: &str) -> Ordering
    ensures { result ≡ place_cmp (place_of object.now)
        (kind, record { namespace = namespace.now; name = name.now }) }
{
    let (own_namespace, own_name) = key_parts(object);
    kind_order(object.kind(), kind).then(own_namespace.cmp(namespace).then(own_name.cmp(name)))
}
