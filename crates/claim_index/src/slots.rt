//! In which slots a claim is listed.
ghost use Rattle.std.specs.Prelude.{◌≡◌, ◌+◌, length, slice_get};
ghost use Rattle.claim_index.specs.GroupSlots.{slots_by};

use address_holders::NumberedSlot;
use kube_model::Port;

/// The slot at the index among those in which a claim with these ports is listed, where its group
/// has this number: the list of all claims comes first, then that of its group, then those of the
/// ports.
pub(crate) fn slot_at(group: Option<u64>, ports: &[Port], index: usize) -> Option<NumberedSlot>
    ensures { result ≡ slice_get (slots_by group ports.now) index }
{
    if index == 0 {
        return Some(NumberedSlot::Any);
    }
    let group = group?;
    if index == 1 {
        return Some(NumberedSlot::OfSharingGroup(group));
    }
    let port = *ports.get(index - 2)?;
    Some(NumberedSlot::OfPort { port, group })
}

/// How many slots there are of a claim with these ports that has a group.
pub(crate) fn slots_with(ports: &[Port]) -> usize
    ensures { result ≡ length ports.now + 2 }
{
    ports.len() + 2
}
