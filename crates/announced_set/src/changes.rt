//! How what a node announces changes.
ghost use Rattle.std.specs.Prelude.{◌≡◌, true, if◌then◌else◌, map, IfOk, OnOk};
ghost use Rattle.std.specs.List.Sorted.{IsStrictlySortedBy};
ghost use Rattle.ip_ranges.specs.Values.{AddressValue, has_address, same_address};
ghost use Rattle.l2_elect.specs.Kept.{AreKeptFor, WereKept};
ghost use Rattle.announced_set.specs.Announced.{address_cmp};
ghost use Rattle.announced_set.specs.Changes.{AreComeSince, AreWithdrawn, difference, kept_among};
ghost use Rattle.announced_set.specs.Changes.{is_kept_announcer};

use ip_ranges::{Address, AddressList};
use kube_labels::Text;
use l2_elect::{Announcers, Move};
use mlb_base::NoMemory;
use speaker_view::{View, ViewChange};
use std::alloc::Global;
use std::collections::BTreeSet;

/// The addresses that a node announces no more, and those that it announces from now on.
pub struct AddressChanges {
    pub withdrawn: BTreeSet<Address>,
    pub announced: BTreeSet<Address>,
}

impl Drop for AddressChanges {
    fn drop(self) {
        let AddressChanges {
            withdrawn: _,
            announced: _,
        } = self;
    }
}

/// Makes the announcers of the view before those of the view, and tells what that changes of what
/// the node announces. After an error nothing is known of the announcers.
pub fn renew_announcers(
    alloc: Global,
    announcers: &mut Announcers,
    view: &View,
    node: &Text,
    change: &ViewChange,
) -> Result<AddressChanges, NoMemory>
    requires { WereKept change.now announcers.old view.now }
    ensures announcers { OnOk result (AreKeptFor announcers.new view.now) }
    ensures withdrawn { IfOk result
        (λ changes. AreWithdrawn announcers.old view.now node.now changes.withdrawn.keys) }
    ensures announced { IfOk result
        (λ changes. AreComeSince announcers.old view.now node.now changes.announced.keys) }
{
    let moves = announcers.moves(view, change)?;
    let addresses = addresses_of(alloc, moves.as_slice())?;
    let before = kept_for_node(alloc, announcers, node, &addresses)?;
    announcers.make(moves)?;
    let after = kept_for_node(alloc, announcers, node, &addresses)?;
    changes_between(alloc, &before, &after)
}

fn addresses_of(alloc: Global, moves: &[Move]) -> Result<AddressList, NoMemory>
    ensures { IfOk result (λ addresses. addresses ≡ map (λ m. m.address) moves.now) }
{
    let mut addresses = AddressList::new(alloc);
    for moved in moves {
        addresses.push(*moved.address())?;
    }
    Ok(addresses)
}

fn changes_between(
    alloc: Global,
    before: &BTreeSet<Address>,
    after: &BTreeSet<Address>,
) -> Result<AddressChanges, NoMemory>
    ensures withdrawn { IfOk result
        (λ changes. changes.withdrawn.keys ≡ difference before.now.keys after.now.keys) }
    ensures announced { IfOk result
        (λ changes. changes.announced.keys ≡ difference after.now.keys before.now.keys) }
{
    Ok(AddressChanges {
        withdrawn: difference(alloc, before, after)?,
        announced: difference(alloc, after, before)?,
    })
}

/// Those of the addresses whose announcer is the node, as it is held.
fn kept_for_node(
    alloc: Global,
    announcers: &Announcers,
    node: &Text,
    addresses: &AddressList,
) -> Result<BTreeSet<Address>, NoMemory>
    ensures { IfOk result (λ found. found.keys ≡ kept_among announcers.now node.now addresses.now) }
{
    kept_among(alloc, announcers, node, addresses.as_slice())
}

fn kept_among(
    alloc: Global,
    announcers: &Announcers,
    node: &Text,
    addresses: &[Address],
) -> Result<BTreeSet<Address>, NoMemory>
    ensures { IfOk result (λ found. found.keys ≡ kept_among announcers.now node.now addresses.now) }
{
    let mut found = BTreeSet::new(alloc);
    for address in addresses {
        if is_kept_announcer(announcers, node, address) {
            found.insert(*address)?;
        }
    }
    Ok(found)
}

fn is_kept_announcer(announcers: &Announcers, node: &Text, address: &Address) -> bool
    ensures { result ≡ is_kept_announcer announcers.now node.now address.now }
{
    match announcers.of(address) {
        Some(name) => name == node,
        None => false,
    }
}

/// The addresses that aren't among the others.
fn difference(
    alloc: Global,
    addresses: &BTreeSet<Address>,
    others: &BTreeSet<Address>,
) -> Result<BTreeSet<Address>, NoMemory>
    ensures { IfOk result (λ found. found.keys ≡ difference addresses.now.keys others.now.keys) }
{
    let mut found = BTreeSet::new(alloc);
    for address in addresses.difference(others) {
        insert(&mut found, address)?;
    }
    ascend(addresses);
    ascend(&found);
    Ok(found)
}

fn insert(addresses: &mut BTreeSet<Address>, address: &Address) -> Result<(), NoMemory>
    ensures { OnOk result ((a : AddressValue)
        → has_address addresses.new.keys a
        ≡ (if same_address a address.now then true else has_address addresses.old.keys a)) }
{
    addresses.insert(*address)?;
    Ok(())
}

/// A set has its addresses in their order, whatever was done to it.
fn ascend(addresses: &BTreeSet<Address>)
    ensures { IsStrictlySortedBy address_cmp addresses.now.keys }
{
    let _count = addresses.len();
}
