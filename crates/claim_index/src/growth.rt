//! A claim gets room at its addresses, and is listed there.
ghost use Rattle.std.specs.Prelude.{◌≡◌, ◌≤◌, ◌++◌, [], true, false, length, if◌then◌else◌, OnOk};
ghost use Rattle.std.specs.List.{Contains};
ghost use Rattle.ip_ranges.specs.declared.family.Family.{Family};
ghost use Rattle.ip_ranges.specs.Values.{AddressValue};
ghost use Rattle.address_holders.specs.declared.slot.NumberedSlot.{NumberedSlot};
ghost use Rattle.address_holders.specs.Holders.{in_slot, claims_having, claim_room, address_room};
ghost use Rattle.address_holders.specs.NumberedSlots.{same_slot};
ghost use Rattle.claim_index.specs.GroupSlots.{is_slot_by};
ghost use Rattle.claim_index.specs.Index.{numbered, ends_with};
ghost use Rattle.claim_index.specs.ListedClaims.{HasRoomAt};

use crate::claims::Claim;
use crate::slots::{slot_at, slots_with};
use address_holders::{AddressHolders, NumberedSlot};
use ip_ranges::Address;
use mlb_base::NoMemory;

/// Makes room for the claim at its addresses, in each slot that it occupies, where its group has
/// this number.
pub(crate) fn reserve_claim(
    holders: &mut AddressHolders,
    claim: &Claim,
    group: Option<u64>,
) -> Result<(), NoMemory>
    ensures numbers { (s : NumberedSlot)
        → claims_having holders.new s ≡ claims_having holders.old s }
    ensures room { OnOk result ((slot : NumberedSlot)
        → is_slot_by group claim.now.terms.ports slot ≡ true
        → HasRoomAt holders.new (length claim.now.holding.addresses) slot
        claim.now.holding.addresses) }
{
    let addresses = claim.addresses();
    let ports = claim.terms().ports.as_slice();
    for index in 0..slots_with(ports) {
        let Some(slot) = slot_at(group, ports, index) else {
            break;
        };
        reserve_each(holders, &slot, addresses)?;
    }
    Ok(())
}

/// Makes room in the slot for a claim that has the addresses.
fn reserve_each(
    holders: &mut AddressHolders,
    slot: &NumberedSlot,
    addresses: &[Address],
) -> Result<(), NoMemory>
    ensures numbers { (s : NumberedSlot)
        → claims_having holders.new s ≡ claims_having holders.old s }
    ensures room { OnOk result (HasRoomAt holders.new
        (length addresses.now) slot.now addresses.now) }
    ensures claims_kept { (s : NumberedSlot) (a : AddressValue)
        → claim_room holders.old s a ≤ claim_room holders.new s a }
    ensures addresses_kept { (s : NumberedSlot) (family : Family)
        → address_room holders.old s family ≤ address_room holders.new s family }
{
    for address in addresses {
        holders.reserve(slot, address, addresses.len())?;
    }
    Ok(())
}

/// The claim is listed under its number at its addresses, in each slot that it occupies, where its
/// group has this number. There is room for it, so it takes no memory.
pub(crate) fn add_claim(
    holders: &mut AddressHolders,
    claim: &Claim,
    group: Option<u64>,
    number: u64,
)
    requires room { (slot : NumberedSlot) → is_slot_by group claim.now.terms.ports slot ≡ true
        → HasRoomAt holders.old (length claim.now.holding.addresses) slot
        claim.now.holding.addresses }
    requires fresh { (slot : NumberedSlot) → is_slot_by group claim.now.terms.ports slot ≡ true
        → (a : AddressValue) → ¬ (Contains (claims_having holders.old slot a) number) }
    ensures { (slot : NumberedSlot)
        → claims_having holders.new slot ≡ (λ a. claims_having holders.old slot a
        ++ (if is_slot_by group claim.now.terms.ports slot
        then numbered number claim.now.holding.addresses a else [])) }
{
    let addresses = claim.addresses();
    let ports = claim.terms().ports.as_slice();
    for index in 0..slots_with(ports) {
        let Some(slot) = slot_at(group, ports, index) else {
            break;
        };
        add_each(holders, &slot, addresses, number);
    }
}

/// The claim is listed in the slot at the addresses, once at each, however often it stands among
/// them. There is room for it, so it takes no memory.
fn add_each(holders: &mut AddressHolders, slot: &NumberedSlot, addresses: &[Address], number: u64)
    requires room { HasRoomAt holders.old (length addresses.now) slot.now addresses.now }
    requires fresh { (a : AddressValue)
        → ¬ (Contains (claims_having holders.old slot.now a) number) }
    ensures numbers { claims_having holders.new slot.now
        ≡ (λ a. claims_having holders.old slot.now a ++ numbered number addresses.now a) }
    ensures others { (s : NumberedSlot) → same_slot slot.now s ≡ false
        → in_slot holders.new s ≡ in_slot holders.old s }
{
    for address in addresses {
        if !ends_with(holders.numbers(slot, address), number) {
            holders.add(slot, address, number);
        }
    }
}

/// Whether the number stands at the end.
fn ends_with(numbers: &[u64], number: u64) -> bool
    ensures { result ≡ ends_with number numbers.now }
{
    match numbers.last() {
        Some(last) => *last == number,
        None => false,
    }
}
