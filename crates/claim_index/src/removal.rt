//! What is left at the addresses of a claim that goes.
ghost use Rattle.std.specs.Prelude.{◌≡◌, false, if◌then◌else◌};
ghost use Rattle.address_holders.specs.declared.slot.NumberedSlot.{NumberedSlot};
ghost use Rattle.address_holders.specs.Holders.{in_slot, claims_having};
ghost use Rattle.address_holders.specs.NumberedSlots.{same_slot};
ghost use Rattle.claim_index.specs.GroupSlots.{is_slot_by};
ghost use Rattle.claim_index.specs.Removal.{left_at};

use crate::claims::Claim;
use crate::slots::{slot_at, slots_with};
use address_holders::{AddressHolders, NumberedSlot};
use ip_ranges::Address;

/// The claim of that number isn't listed at its addresses any more, in no slot, where its group has
/// this number. It takes no memory.
pub(crate) fn remove_claim(
    holders: &mut AddressHolders,
    claim: &Claim,
    group: Option<u64>,
    number: u64,
)
    ensures numbers { (slot : NumberedSlot) → claims_having holders.new slot
        ≡ (if is_slot_by group claim.now.terms.ports slot
        then left_at number claim.now.holding.addresses (claims_having holders.old slot)
        else claims_having holders.old slot) }
{
    let addresses = claim.addresses();
    let ports = claim.terms().ports.as_slice();
    for index in 0..slots_with(ports) {
        let Some(slot) = slot_at(group, ports, index) else {
            break;
        };
        remove_each(holders, &slot, addresses, number);
    }
}

fn remove_each(
    holders: &mut AddressHolders,
    slot: &NumberedSlot,
    addresses: &[Address],
    number: u64,
)
    ensures numbers { claims_having holders.new slot.now
        ≡ left_at number addresses.now (claims_having holders.old slot.now) }
    ensures others { (s : NumberedSlot) → same_slot slot.now s ≡ false
        → in_slot holders.new s ≡ in_slot holders.old s }
{
    for address in addresses {
        holders.remove(slot, address, number);
    }
}
