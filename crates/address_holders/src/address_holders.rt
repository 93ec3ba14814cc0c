//! Who has the addresses of both families.
ghost use Rattle.std.specs.Prelude.{◌≡◌, ◌↔◌, ◌≤◌, ◌<◌, ◌+◌, ◌==◌, ◌∷◌, ◌++◌, [], true, false, not};
ghost use Rattle.std.specs.Prelude.{filter, if◌then◌else◌, IsTrue, OnOk, IfSome, IfNone};
ghost use Rattle.ip_ranges.specs.declared.family.Family.{Family};
ghost use Rattle.ip_ranges.specs.Values.{AddressValue, same_address};
ghost use Rattle.mlb_base.specs.Items.{is_nil};
ghost use Rattle.address_holders.specs.declared.slot.NumberedSlot.{NumberedSlot};
ghost use Rattle.address_holders.specs.Holders.{in_slot, claims_having, claim_room, address_room};
ghost use Rattle.address_holders.specs.Holders.{address_of, is_held_but, is_held_in, is_open_in};
ghost use Rattle.address_holders.specs.NumberedSlots.{same_slot};
ghost use Rattle.number_sets.specs.Least.{IsLeastIn, NonePasses};

use crate::holders::Holders;
use crate::slot::NumberedSlot;
use ip_ranges::{Address, Family};
use mlb_base::NoMemory;
use std::alloc::Global;
use std::marker::Model;

/// Who has the addresses of both families: in each slot, by each address, the numbers of the claims
/// that have it.
pub struct AddressHolders {
    v4: Holders,
    v6: Holders,
}

impl Drop for AddressHolders {
    fn drop(self) {
        let AddressHolders { v4: _, v6: _ } = self;
    }
}

impl Model for AddressHolders {
    ghost use Rattle.address_holders.specs.Holders.{AddressHoldersValue};

    ghost Value = { AddressHoldersValue };

    ghost view = { λ h. record { v4 = h.v4; v6 = h.v6 } };
}

impl AddressHolders {
    /// Nobody has an address. It takes no memory.
    pub fn new(alloc: Global) -> AddressHolders
        ensures numbers { (slot : NumberedSlot) → claims_having result slot ≡ (λ a. []) }
    {
        AddressHolders {
            v4: Holders::new(alloc),
            v6: Holders::new(alloc),
        }
    }

    /// Makes room in the slot for a claim more on the address, and for so many addresses more of
    /// its family. Where there is no memory the claims stay.
    pub fn reserve(
        &mut self,
        slot: &NumberedSlot,
        address: &Address,
        more: usize,
    ) -> Result<(), NoMemory>
        ensures numbers { (s : NumberedSlot) → claims_having self.new s ≡ claims_having self.old s }
        ensures claims { OnOk result (0 < claim_room self.new slot.now address.now) }
        ensures addresses { OnOk result (more ≤ address_room self.new slot.now address.now.family) }
        ensures claims_kept { (s : NumberedSlot) (a : AddressValue)
            → claim_room self.old s a ≤ claim_room self.new s a }
        ensures addresses_kept { (s : NumberedSlot) (family : Family)
            → address_room self.old s family ≤ address_room self.new s family }
    {
        match address.family {
            Family::V4 => self.v4.reserve(slot, address.number, more),
            Family::V6 => self.v6.reserve(slot, address.number, more),
        }
    }

    /// The claim is listed in the slot at the address. There is room for it, so it takes no memory.
    pub fn add(&mut self, slot: &NumberedSlot, address: &Address, claim: u64)
        requires claims { 0 < claim_room self.old slot.now address.now }
        requires addresses { 0 < address_room self.old slot.now address.now.family }
        ensures numbers { claims_having self.new slot.now
            ≡ (λ a. if same_address address.now a then claims_having self.old slot.now a
            ++ claim ∷ [] else claims_having self.old slot.now a) }
        ensures claims { (a : AddressValue)
            → claim_room self.old slot.now a
            ≤ claim_room self.new slot.now a + (if same_address address.now a then 1 else 0) }
        ensures addresses { (family : Family)
            → address_room self.old slot.now family ≤ address_room self.new slot.now family + 1 }
        ensures others { (s : NumberedSlot) → same_slot slot.now s ≡ false
            → in_slot self.new s ≡ in_slot self.old s }
    {
        match address.family {
            Family::V4 => self.v4.add(slot, address.number, claim),
            Family::V6 => self.v6.add(slot, address.number, claim),
        }
    }

    /// The claim isn't listed in the slot at the address. It takes no memory.
    pub fn remove(&mut self, slot: &NumberedSlot, address: &Address, claim: u64)
        ensures numbers { claims_having self.new slot.now
            ≡ (λ a. if same_address address.now a
            then filter (λ c. not (c == claim)) (claims_having self.old slot.now a)
            else claims_having self.old slot.now a) }
        ensures others { (s : NumberedSlot) → same_slot slot.now s ≡ false
            → in_slot self.new s ≡ in_slot self.old s }
    {
        match address.family {
            Family::V4 => self.v4.remove(slot, address.number, claim),
            Family::V6 => self.v6.remove(slot, address.number, claim),
        }
    }

    /// Whether no claim is listed in the slot.
    pub fn is_unused(&self, slot: &NumberedSlot) -> bool
        ensures { IsTrue result ↔ (claims_having self.now slot.now ≡ (λ a. [])) }
    {
        self.v4.is_unused(slot) && self.v6.is_unused(slot)
    }

    /// The numbers of the claims in the slot that have the address.
    pub fn numbers(&self, slot: &NumberedSlot, address: &Address) -> &[u64]
        ensures { result.now ≡ claims_having self.now slot.now address.now }
    {
        match address.family {
            Family::V4 => self.v4.numbers(slot, address.number),
            Family::V6 => self.v6.numbers(slot, address.number),
        }
    }

    /// The least number from low to high of an address of the family that no claim in the slot has,
    /// and that isn't a buggy one where those are avoided.
    pub fn first_unclaimed(
        &self,
        slot: &NumberedSlot,
        avoiding: bool,
        family: Family,
        low: u128,
        high: u128,
    ) -> Option<u128>
        ensures some { IfSome result (λ n. IsLeastIn
            (λ m. is_open_in avoiding self.now slot.now (address_of family m)) low high n) }
        ensures none { IfNone result (NonePasses
            (λ m. is_open_in avoiding self.now slot.now (address_of family m)) low high) }
    {
        match family {
            // An IPv4 address is buggy at an edge of its block of 256.
            Family::V4 => self.v4.first_unclaimed(slot, avoiding, low, high),
            Family::V6 => self.v6.first_unclaimed(slot, false, low, high),
        }
    }

    /// The least number from low to high of an address of the family that a claim in the slot has.
    pub fn first_claimed(
        &self,
        slot: &NumberedSlot,
        family: Family,
        low: u128,
        high: u128,
    ) -> Option<u128>
        ensures some { IfSome result (λ n. IsLeastIn
            (λ m. not (is_nil (claims_having self.now slot.now (address_of family m)))) low high
            n) }
        ensures none { IfNone result (NonePasses
            (λ m. not (is_nil (claims_having self.now slot.now (address_of family m)))) low high) }
    {
        match family {
            Family::V4 => self.v4.first_claimed(slot, low, high),
            Family::V6 => self.v6.first_claimed(slot, low, high),
        }
    }

    /// The least number from low to high of an address of the family that a claim in the slot has
    /// and none in the other, where those of the other are all in the slot.
    pub fn first_beyond(
        &self,
        slot: &NumberedSlot,
        fewer: &NumberedSlot,
        family: Family,
        low: u128,
        high: u128,
    ) -> Option<u128>
        requires { (a : AddressValue) → is_held_in self.now fewer.now a ≡ true
            → is_held_in self.now slot.now a ≡ true }
        ensures some { IfSome result (λ n. IsLeastIn
            (is_held_but self.now slot.now fewer.now family) low high n) }
        ensures none { IfNone result (NonePasses
            (is_held_but self.now slot.now fewer.now family) low high) }
    {
        match family {
            Family::V4 => self.v4.first_beyond(slot, fewer, low, high),
            Family::V6 => self.v6.first_beyond(slot, fewer, low, high),
        }
    }
}
