//! What is told of an event.
ghost use Rattle.std.specs.Prelude.{◌≡◌, ◌++◌, ◌∷◌, map, IfOk, OnOk};
ghost use Rattle.std.specs.List.{flat_map};
ghost use Rattle.l2_elect.specs.Kept.{AreKeptFor};
ghost use Rattle.speaker_machine.specs.Transcript.{withdrawn};
ghost use Rattle.speaker_machine.specs.Sends.{announcement};

use crate::local_node::LocalNode;
use crate::sends::push_all_unasked;
use announced_set::AddressChanges;
use ip_ranges::Address;
use kube_labels::Text;
use l2_elect::Announcers;
use mlb_base::{ByteList, NoMemory, Sequence};
use object_cache::TakeNote;
use speaker_view::View;
use std::alloc::Global;
use std::collections::BTreeSet;

/// One thing that is told.
#[derive(Drop)]
pub enum TranscriptEntry {
    /// What became of a configuration.
    Noted { note: TakeNote },
    /// The address isn't announced any more.
    Withdrawn { address: Address },
    /// The address is announced from now on.
    Announced { address: Address },
    /// The frame is to be sent by the interface of this name.
    Sent { interface: Text, frame: ByteList },
    /// The UPDATE message is for the BGP peer of this name.
    Updated { peer: Text, message: ByteList },
}

/// What is told where the addresses that the node announces by this view changed so.
pub(crate) fn entries_for(
    alloc: Global,
    view: &View,
    announcers: &Announcers,
    local: &LocalNode,
    note: TakeNote,
    changes: &AddressChanges,
) -> Result<Sequence<TranscriptEntry>, NoMemory>
    requires { AreKeptFor announcers.now view.now }
    ensures { IfOk result (λ entries. entries
        ≡ TranscriptEntry.Noted note ∷ map withdrawn changes.now.withdrawn.keys
        ++ flat_map (announcement view.now local.now) changes.now.announced.keys) }
{
    let mut entries = Sequence::new(alloc);
    entries.push(TranscriptEntry::Noted { note })?;
    push_withdrawals(&mut entries, &changes.withdrawn)?;
    push_announcements(
        alloc,
        &mut entries,
        view,
        announcers,
        local,
        &changes.announced,
    )?;
    Ok(entries)
}

fn push_withdrawals(
    entries: &mut Sequence<TranscriptEntry>,
    addresses: &BTreeSet<Address>,
) -> Result<(), NoMemory>
    ensures { OnOk result (entries.new ≡ entries.old ++ map withdrawn addresses.now.keys) }
{
    for address in addresses {
        entries.push(TranscriptEntry::Withdrawn { address: *address })?;
    }
    Ok(())
}

fn push_announcements(
    alloc: Global,
    entries: &mut Sequence<TranscriptEntry>,
    view: &View,
    announcers: &Announcers,
    local: &LocalNode,
    addresses: &BTreeSet<Address>,
) -> Result<(), NoMemory>
    requires { AreKeptFor announcers.now view.now }
    ensures { OnOk result (entries.new
        ≡ entries.old ++ flat_map (announcement view.now local.now) addresses.now.keys) }
{
    for address in addresses {
        push_announcement(alloc, entries, view, announcers, local, address)?;
    }
    Ok(())
}

/// The announcement of an address, and the frames that are sent with it.
fn push_announcement(
    alloc: Global,
    entries: &mut Sequence<TranscriptEntry>,
    view: &View,
    announcers: &Announcers,
    local: &LocalNode,
    address: &Address,
) -> Result<(), NoMemory>
    requires { AreKeptFor announcers.now view.now }
    ensures { OnOk result (entries.new
        ≡ entries.old ++ announcement view.now local.now address.now) }
{
    entries.push(TranscriptEntry::Announced { address: *address })?;
    push_all_unasked(alloc, entries, view, announcers, local, address)
}
