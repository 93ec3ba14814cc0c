//! Who has the addresses of one family.
ghost use Rattle.std.specs.Prelude.{◌≡◌, ◌↔◌, ◌≤◌, ◌<◌, ◌+◌, ◌==◌, ℕ, ◌∷◌, ◌++◌, [], true, false};
ghost use Rattle.std.specs.Prelude.{not, filter, if◌then◌else◌, IsTrue, OnOk, IfSome, IfNone};
ghost use Rattle.mlb_base.specs.Items.{is_nil};
ghost use Rattle.address_holders.specs.declared.slot.NumberedSlot.{NumberedSlot};
ghost use Rattle.address_holders.specs.Holders.{claims_at, claim_room_at, in_slot_at, is_listed};
ghost use Rattle.address_holders.specs.Holders.{is_listed_but, is_open_at};
ghost use Rattle.address_holders.specs.NumberedSlots.{same_slot};
ghost use Rattle.number_sets.specs.Least.{IsLeastIn, NonePasses};

use crate::claimants::Claimants;
use crate::slot::NumberedSlot;
use mlb_base::NoMemory;
use std::alloc::Global;
use std::collections::BTreeMap;
use std::marker::Model;

/// Who has the addresses of one family: in each slot the claims by their addresses. A slot in which
/// no claim is listed any more is dropped.
#[derive(Drop)]
pub(crate) struct Holders {
    alloc: Global,
    by_slot: BTreeMap<NumberedSlot, Claimants>,
}

impl Model for Holders {
    ghost use Rattle.address_holders.specs.Holders.{HoldersValue};

    ghost Value = { HoldersValue };

    ghost view = { λ h. h.by_slot.entries };
}

impl Holders {
    /// Nobody has an address. It takes no memory.
    pub(crate) fn new(alloc: Global) -> Holders
        ensures numbers { (slot : NumberedSlot) → claims_at (in_slot_at result slot) ≡ (λ n. []) }
    {
        Holders {
            alloc,
            by_slot: BTreeMap::new(alloc),
        }
    }

    /// Makes room in the slot for a claim more on the address, and for so many addresses more.
    pub(crate) fn reserve(
        &mut self,
        slot: &NumberedSlot,
        number: u128,
        more: usize,
    ) -> Result<(), NoMemory>
        ensures numbers { (s : NumberedSlot)
            → claims_at (in_slot_at self.new s) ≡ claims_at (in_slot_at self.old s) }
        ensures claims { OnOk result (0 < claim_room_at (in_slot_at self.new slot.now) number) }
        ensures addresses { OnOk result (more ≤ (in_slot_at self.new slot.now).room) }
        ensures claims_kept { (s : NumberedSlot) (n : ℕ)
            → claim_room_at (in_slot_at self.old s) n ≤ claim_room_at (in_slot_at self.new s) n }
        ensures addresses_kept { (s : NumberedSlot)
            → (in_slot_at self.old s).room ≤ (in_slot_at self.new s).room }
    {
        if let Some(claimants) = self.by_slot.get_mut(slot) {
            return claimants.reserve(number, more);
        }
        let claimants = Claimants::with_room(self.alloc, slot.is_any(), number, more)?;
        let none = self.by_slot.insert(*slot, claimants)?;
        drop(none);
        Ok(())
    }

    /// The claim is listed in the slot at the address. There is room for it, so it takes no memory.
    pub(crate) fn add(&mut self, slot: &NumberedSlot, number: u128, claim: u64)
        requires claims { 0 < claim_room_at (in_slot_at self.old slot.now) number }
        requires addresses { 0 < (in_slot_at self.old slot.now).room }
        ensures numbers { claims_at (in_slot_at self.new slot.now)
            ≡ (λ n. if number == n then claims_at (in_slot_at self.old slot.now) n ++ claim ∷ []
            else claims_at (in_slot_at self.old slot.now) n) }
        ensures claims { (n : ℕ)
            → claim_room_at (in_slot_at self.old slot.now) n
            ≤ claim_room_at (in_slot_at self.new slot.now) n + (if number == n then 1 else 0) }
        ensures addresses { (in_slot_at self.old slot.now).room
            ≤ (in_slot_at self.new slot.now).room + 1 }
        ensures others { (s : NumberedSlot) → same_slot slot.now s ≡ false
            → in_slot_at self.new s ≡ in_slot_at self.old s }
    {
        let Some(claimants) = self.by_slot.get_mut(slot) else {
            return;
        };
        claimants.add(number, claim);
    }

    /// The claim isn't listed in the slot at the address. It takes no memory.
    pub(crate) fn remove(&mut self, slot: &NumberedSlot, number: u128, claim: u64)
        ensures numbers { claims_at (in_slot_at self.new slot.now)
            ≡ (λ n. if number == n then filter (λ c. not (c == claim))
            (claims_at (in_slot_at self.old slot.now) n)
            else claims_at (in_slot_at self.old slot.now) n) }
        ensures others { (s : NumberedSlot) → same_slot slot.now s ≡ false
            → in_slot_at self.new s ≡ in_slot_at self.old s }
    {
        let Some(claimants) = self.by_slot.get_mut(slot) else {
            return;
        };
        claimants.remove(number, claim);
        if claimants.is_empty() {
            self.drop_empty(slot);
        }
    }

    /// Drops the slot, in which no claim is listed.
    fn drop_empty(&mut self, slot: &NumberedSlot)
        requires { claims_at (in_slot_at self.old slot.now) ≡ (λ n. []) }
        ensures numbers { claims_at (in_slot_at self.new slot.now) ≡ (λ n. []) }
        ensures others { (s : NumberedSlot) → same_slot slot.now s ≡ false
            → in_slot_at self.new s ≡ in_slot_at self.old s }
    {
        let _empty = self.by_slot.remove(slot);
    }

    /// Whether no claim is listed in the slot.
    pub(crate) fn is_unused(&self, slot: &NumberedSlot) -> bool
        ensures { IsTrue result ↔ (claims_at (in_slot_at self.now slot.now) ≡ (λ n. [])) }
    {
        match self.by_slot.get(slot) {
            Some(claimants) => claimants.is_empty(),
            None => true,
        }
    }

    /// The numbers of the claims that are listed in the slot at the address.
    pub(crate) fn numbers(&self, slot: &NumberedSlot, number: u128) -> &[u64]
        ensures { result.now ≡ claims_at (in_slot_at self.now slot.now) number }
    {
        match self.by_slot.get(slot) {
            Some(claimants) => claimants.numbers(number),
            None => &[],
        }
    }

    /// The least address from low to high at which no claim is listed in the slot, and that is no
    /// edge where it is sought inside blocks.
    pub(crate) fn first_unclaimed(
        &self,
        slot: &NumberedSlot,
        inside: bool,
        low: u128,
        high: u128,
    ) -> Option<u128>
        ensures some { IfSome result (λ n. IsLeastIn
            (is_open_at inside (in_slot_at self.now slot.now)) low high n) }
        ensures none { IfNone result (NonePasses
            (is_open_at inside (in_slot_at self.now slot.now)) low high) }
    {
        match self.by_slot.get(slot) {
            Some(claimants) => claimants.first_unclaimed(inside, low, high),
            None => {
                let none = Claimants::new(self.alloc, false);
                none.first_unclaimed(inside, low, high)
            }
        }
    }

    /// The least address from low to high at which a claim is listed in the slot.
    pub(crate) fn first_claimed(&self, slot: &NumberedSlot, low: u128, high: u128) -> Option<u128>
        ensures some { IfSome result (λ n. IsLeastIn
            (λ m. not (is_nil (claims_at (in_slot_at self.now slot.now) m))) low high n) }
        ensures none { IfNone result (NonePasses
            (λ m. not (is_nil (claims_at (in_slot_at self.now slot.now) m))) low high) }
    {
        self.by_slot.get(slot)?.first_claimed(low, high)
    }

    /// The least address from low to high at which a claim is listed in the slot and none in the
    /// other, where those of the other are all listed in the slot.
    pub(crate) fn first_beyond(
        &self,
        slot: &NumberedSlot,
        fewer: &NumberedSlot,
        low: u128,
        high: u128,
    ) -> Option<u128>
        requires { (n : ℕ) → is_listed (in_slot_at self.now fewer.now) n ≡ true
            → is_listed (in_slot_at self.now slot.now) n ≡ true }
        ensures some { IfSome result (λ n. IsLeastIn
            (is_listed_but (in_slot_at self.now slot.now) (in_slot_at self.now fewer.now)) low high
            n) }
        ensures none { IfNone result (NonePasses
            (is_listed_but (in_slot_at self.now slot.now) (in_slot_at self.now fewer.now)) low
            high) }
    {
        let claimants = self.by_slot.get(slot)?;
        match self.by_slot.get(fewer) {
            Some(others) => claimants.first_beyond(others, low, high),
            None => claimants.first_claimed(low, high),
        }
    }
}
