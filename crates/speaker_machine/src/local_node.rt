//! Where a speaker runs, and by what it sends.
ghost use Rattle.std.specs.Prelude.{◌≡◌, map, IfOk};
ghost use Rattle.std.specs.Option.{option_map};
ghost use Rattle.speaker_words.specs.Seen.{interface_seen, said_seen};
ghost use Rattle.speaker_machine.specs.Sends.{interface_of};
ghost use Rattle.speaker_machine.specs.LocalNode.{hops_of, interface_by, local_node_of};

use ip_ranges::Address;
use kube_labels::Text;
use mlb_base::{NoMemory, Sequence};
use speaker_words::{InterfaceWord, SpeakerWords};
use std::alloc::Global;

/// An interface by which frames are sent.
pub struct Interface {
    /// Its name.
    pub name: Text,
    /// Its hardware address.
    pub mac: [u8; 6],
}

impl Drop for Interface {
    fn drop(self) {
        let Interface { name: _, mac: _ } = self;
    }
}

/// The next hops of routes.
#[derive(Clone, Copy)]
pub struct NextHops {
    /// That of routes of IPv4.
    pub v4: Address,
    /// With none, no routes of IPv6 are told.
    pub v6: Option<Address>,
}

/// Where a speaker runs.
pub struct LocalNode {
    /// The name of its node.
    pub node: Text,
    /// The interfaces of the words, in their order.
    pub interfaces: Sequence<Interface>,
    /// With none, no routes are told.
    pub next_hops: Option<NextHops>,
}

impl Drop for LocalNode {
    fn drop(self) {
        let LocalNode {
            node: _,
            interfaces: _,
            next_hops: _,
        } = self;
    }
}

impl LocalNode {
    /// The node, the interfaces and the next hops of the words.
    pub fn new(alloc: Global, said: &SpeakerWords<'_>) -> Result<LocalNode, NoMemory>
        ensures { IfOk result (λ local. local ≡ local_node_of (said_seen said.now)) }
    {
        let node = Text::new(alloc, said.node)?;
        let interfaces = owned_interfaces(alloc, said.interfaces.as_slice())?;
        Ok(LocalNode {
            node,
            interfaces,
            next_hops: hops_of(said),
        })
    }

    /// The interface of this name.
    pub fn interface(&self, name: &Text) -> Option<&Interface>
        ensures { option_map (λ i. i.now) result ≡ interface_of self.now name.now }
    {
        self.interfaces
            .as_slice()
            .iter()
            .find(|interface| interface.name == *name)
    }
}

/// The next hops of the words.
fn hops_of(said: &SpeakerWords<'_>) -> Option<NextHops>
    ensures { result ≡ hops_of (said_seen said.now) }
{
    let v4 = said.next_hop?;
    Some(NextHops {
        v4,
        v6: said.next_hop_v6,
    })
}

/// The interfaces of the words, with names of their own.
fn owned_interfaces(
    alloc: Global,
    words: &[InterfaceWord<'_>],
) -> Result<Sequence<Interface>, NoMemory>
    ensures { IfOk result (λ interfaces. interfaces
        ≡ map interface_by (map interface_seen words.now)) }
{
    let mut interfaces = Sequence::new(alloc);
    for word in words {
        interfaces.push(Interface {
            name: Text::new(alloc, word.name)?,
            mac: word.mac,
        })?;
    }
    Ok(interfaces)
}
