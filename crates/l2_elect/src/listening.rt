//! On which interfaces a node answers for an address.
ghost use Rattle.std.specs.Prelude.{◌≡◌, ◌↔◌, ◌&&◌, IsTrue};
ghost use Rattle.std.specs.Option.{option_copied};
ghost use Rattle.std.specs.List.{list_any};
ghost use Rattle.kube_labels.specs.Names.{has_text};
ghost use Rattle.l2_elect.specs.Election.{is_named};
ghost use Rattle.l2_elect.specs.Kept.{AreKnown};
ghost use Rattle.l2_elect.specs.Listening.{names_interface, listens_by, is_listened, listens_of};
ghost use Rattle.l2_elect.specs.Listening.{Listens};

use crate::announcers::Announcers;
use crate::election::first;
use crate::eligible::advertises;
use ip_ranges::Address;
use kube_labels::{Text, TextList};
use pool_config::{CompiledL2, CompiledPool};
use speaker_view::View;

/// Whether the node announces the address on the interface: some advertisement that chooses the
/// address's pool and selects the node has no interfaces or names this one. It takes no memory.
pub fn listens(view: &View, node: &str, interface: &str, address: &Address) -> bool
    ensures value { result ≡ listens_of view.now node.now interface.now address.now }
    ensures meaning { IsTrue result ↔ Listens view.now node.now interface.now address.now }
{
    listens_as(view, node, first(view, address), interface, address)
}

/// The same, by the announcers of the view where they are known: then no election is held. It takes
/// no memory.
pub fn listens_known(
    view: &View,
    announcers: Option<&Announcers>,
    node: &str,
    interface: &str,
    address: &Address,
) -> bool
    requires { AreKnown (option_copied announcers) view.now }
    ensures value { result ≡ listens_of view.now node.now interface.now address.now }
    ensures meaning { IsTrue result ↔ Listens view.now node.now interface.now address.now }
{
    match announcers {
        Some(announcers) => { listens_as(view, node, announcers.of(address), interface, address) }
        None => listens(view, node, interface, address),
    }
}

/// Whether the announcer has the node's name, and listens.
fn listens_as(
    view: &View,
    node: &str,
    announcer: Option<&Text>,
    interface: &str,
    address: &Address,
) -> bool
    ensures { result ≡ (is_named node.now (option_copied announcer.entry)
        && is_listened view.now node.now interface.now address.now) }
{
    match announcer {
        Some(announcer) => {
            announcer.as_str() == node && is_listened(view, announcer, interface, address)
        }
        None => false,
    }
}

fn is_listened(view: &View, node: &Text, interface: &str, address: &Address) -> bool
    ensures { result ≡ is_listened view.now node.now interface.now address.now }
{
    let Some(config) = view.config() else {
        return false;
    };
    let Some(pool) = config.pool_with(address) else {
        return false;
    };
    any_listens(view, node, interface, pool, config.l2.as_slice())
}

fn any_listens(
    view: &View,
    node: &Text,
    interface: &str,
    pool: &CompiledPool,
    l2: &[CompiledL2],
) -> bool
    ensures { result ≡ list_any (listens_by view.now node.now interface.now pool.now) l2.now }
{
    l2.iter().any(|advertisement| listens_by(view, node, interface, pool, advertisement))
}

fn listens_by(
    view: &View,
    node: &Text,
    interface: &str,
    pool: &CompiledPool,
    advertisement: &CompiledL2,
) -> bool
    ensures { result ≡ listens_by view.now node.now interface.now pool.now advertisement.now }
{
    advertises(view, node, pool, advertisement)
        && names_interface(&advertisement.interfaces, interface)
}

/// Whether the interfaces have this one, or are none.
fn names_interface(interfaces: &TextList, interface: &str) -> bool
    ensures { result ≡ names_interface interfaces.now interface.now }
{
    interfaces.is_empty() || has_text(interfaces.as_slice(), interface)
}

pub(crate) fn has_text(texts: &[Text], text: &str) -> bool
    ensures { result ≡ has_text texts.now text.now }
{
    texts.iter().any(|held| held.as_str() == text)
}
