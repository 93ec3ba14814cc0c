//! The frames that are sent.
ghost use Rattle.std.specs.Prelude.{◌≡◌, ◌++◌, ◌∷◌, [], IfOk, OnOk};
ghost use Rattle.std.specs.Option.{option_copied};
ghost use Rattle.l2_elect.specs.Kept.{AreKeptFor, AreKnown};
ghost use Rattle.l2_elect.specs.Listening.{listens_of};
ghost use Rattle.speaker_machine.specs.declared.transcript.TranscriptEntry.TheVariants as told;
ghost use Rattle.speaker_machine.specs.Sends.{unsolicited_by, unsolicited, answer_on, sent_on};
ghost use Rattle.speaker_machine.specs.Sends.{answers};

use crate::local_node::{Interface, LocalNode};
use crate::transcript::TranscriptEntry;
use ip_ranges::{Address, Family};
use kube_labels::Text;
use l2_elect::{Announcers, listens_known};
use mlb_base::{ByteList, NoMemory, Sequence, TryCopy};
use neigh_frames::{arp_answer_known, ndp_answer_known, unasked_arp, unasked_ndp};
use speaker_view::View;
use std::alloc::Global;

/// Has the frame sent by the interface.
fn push_sent(
    alloc: Global,
    entries: &mut Sequence<TranscriptEntry>,
    interface: &Interface,
    frame: &[u8],
) -> Result<(), NoMemory>
    ensures { OnOk result (entries.new
        ≡ entries.old ++ told.Sent interface.now.name frame.now ∷ []) }
{
    let frame = ByteList::from_slice(alloc, frame)?;
    let interface = interface.name.copy()?;
    entries.push(TranscriptEntry::Sent { interface, frame })
}

/// Has the unsolicited frame of the address sent by the interface.
fn push_unasked(
    alloc: Global,
    entries: &mut Sequence<TranscriptEntry>,
    interface: &Interface,
    address: &Address,
) -> Result<(), NoMemory>
    ensures { OnOk result (entries.new
        ≡ entries.old ++ unsolicited_by address.now interface.now ∷ []) }
{
    match address.family {
        Family::V4 => push_sent(
            alloc,
            entries,
            interface,
            &unasked_arp(&interface.mac, address),
        ),
        Family::V6 => push_sent(
            alloc,
            entries,
            interface,
            &unasked_ndp(&interface.mac, address),
        ),
    }
}

/// Has the unsolicited frame of the address sent by each interface on which the node listens for
/// it.
pub(crate) fn push_all_unasked(
    alloc: Global,
    entries: &mut Sequence<TranscriptEntry>,
    view: &View,
    announcers: &Announcers,
    local: &LocalNode,
    address: &Address,
) -> Result<(), NoMemory>
    requires { AreKeptFor announcers.now view.now }
    ensures { OnOk result (entries.new
        ≡ entries.old ++ unsolicited view.now local.now address.now) }
{
    for interface in local.interfaces.as_slice() {
        if is_listening(view, announcers, local, interface, address) {
            push_unasked(alloc, entries, interface, address)?;
        }
    }
    Ok(())
}

fn is_listening(
    view: &View,
    announcers: &Announcers,
    local: &LocalNode,
    interface: &Interface,
    address: &Address,
) -> bool
    requires { AreKeptFor announcers.now view.now }
    ensures { result ≡ listens_of view.now local.now.node interface.now.name address.now }
{
    listens_known(
        view,
        Some(announcers),
        local.node.as_str(),
        interface.name.as_str(),
        address,
    )
}

/// What is sent where the interface receives the frame.
pub(crate) fn answers(
    alloc: Global,
    view: &View,
    announcers: Option<&Announcers>,
    local: &LocalNode,
    interface: &Text,
    frame: &[u8],
) -> Result<Sequence<TranscriptEntry>, NoMemory>
    requires { AreKnown (option_copied announcers) view.now }
    ensures { IfOk result (λ entries. entries
        ≡ answers view.now local.now interface.now frame.now) }
{
    let mut entries = Sequence::new(alloc);
    if let Some(interface) = local.interface(interface) {
        push_answer(
            alloc,
            &mut entries,
            view,
            announcers,
            &local.node,
            interface,
            frame,
        )?;
    }
    Ok(entries)
}

/// Has the answer to the frame sent by the interface that received it, where there is one: that of
/// ARP, else that of Neighbor Discovery.
fn push_answer(
    alloc: Global,
    entries: &mut Sequence<TranscriptEntry>,
    view: &View,
    announcers: Option<&Announcers>,
    node: &Text,
    interface: &Interface,
    frame: &[u8],
) -> Result<(), NoMemory>
    requires { AreKnown (option_copied announcers) view.now }
    ensures { OnOk result (entries.new
        ≡ entries.old ++ sent_on interface.now
        (answer_on view.now node.now interface.now frame.now)) }
{
    let node = node.as_str();
    let name = interface.name.as_str();
    if let Some(answer) = arp_answer_known(view, announcers, node, name, &interface.mac, frame) {
        return push_sent(alloc, entries, interface, &answer);
    }
    if let Some(answer) = ndp_answer_known(view, announcers, node, name, &interface.mac, frame) {
        return push_sent(alloc, entries, interface, &answer);
    }
    Ok(())
}
