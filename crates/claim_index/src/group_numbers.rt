//! The numbers of groups.
ghost use Rattle.std.specs.Prelude.{◌≡◌, ◌≤◌, ℕ, List, [], Some, None, IfOk, OnOk, if◌then◌else◌};
ghost use Rattle.std.specs.Str.{bytes_eq};
ghost use Rattle.address_holders.specs.declared.slot.NumberedSlot.TheVariants.{OfSharingGroup};
ghost use Rattle.address_holders.specs.Holders.{claims_having};
ghost use Rattle.claim_index.specs.GroupNumbers.{number_of, number_for, HasNumber, AreNumbered};
ghost use Rattle.claim_index.specs.GroupNumbers.{AreMore};
ghost use Rattle.claim_index.specs.ListedClaims.{AreFewer};
ghost use Rattle.claim_index.specs.SharingGroups.{HasSharingGroup};

use crate::grouped::GroupedTerms;
use address_holders::{AddressHolders, NumberedSlot};
use kube_labels::Text;
use mlb_base::{NoMemory, TryCopy};
use std::alloc::Global;
use std::collections::BTreeMap;
use std::marker::Model;

/// A number for each group that has claims, so that its text stands once. No number is given twice.
#[derive(Drop)]
pub(crate) struct GroupNumbers {
    numbers: BTreeMap<Text, u64>,
    next: u64,
}

impl Model for GroupNumbers {
    ghost use Rattle.claim_index.specs.GroupNumbers.{GroupsValue, AreNumbered};

    ghost Value = { GroupsValue };

    ghost view = { λ g. record { numbers = g.numbers.entries; next = g.next } };

    ghost invariant = { λ g. AreNumbered (record { numbers = g.numbers.entries; next = g.next }) };
}

impl GroupNumbers {
    /// No group has a number, which takes no memory.
    pub(crate) fn new(alloc: Global) -> GroupNumbers
        ensures { (group : List ℕ) → number_of result group ≡ None }
    {
        GroupNumbers {
            numbers: BTreeMap::new(alloc),
            next: 0,
        }
    }

    /// The number of the group of the terms; none where they have no sharing key, or it has none.
    pub(crate) fn number(&self, terms: &GroupedTerms) -> Option<u64>
        ensures number { result ≡ number_for self.now terms.now }
        ensures numbered { AreNumbered self.now }
        ensures grouped { HasSharingGroup terms.now }
    {
        match terms.group() {
            Some(group) => self.numbers.get(group).copied(),
            None => None,
        }
    }

    /// The number of the group of the terms, which gets one where it has none; none where they have
    /// no sharing key. Where there is no memory, or once all numbers have been given, it answers
    /// NoMemory, and all numbers stay.
    pub(crate) fn give(&mut self, terms: &GroupedTerms) -> Result<Option<u64>, NoMemory>
        ensures number { IfOk result (λ number. number ≡ number_for self.new terms.now) }
        ensures given { OnOk result (HasNumber self.new terms.now) }
        ensures more { AreMore self.old self.new }
    {
        match terms.group() {
            Some(group) => Ok(Some(self.give_to(group)?)),
            None => Ok(None),
        }
    }

    /// The number of the group, which gets one where it has none.
    fn give_to(&mut self, group: &Text) -> Result<u64, NoMemory>
        ensures number { IfOk result (λ n. number_of self.new group.now ≡ Some n) }
        ensures more { AreMore self.old self.new }
    {
        if let Some(number) = self.numbers.get(group).copied() {
            return Ok(number);
        }
        let number = self.next;
        if number == u64::MAX {
            return Err(NoMemory);
        }
        let _none = self.numbers.insert(group.copy()?, number)?;
        self.next = number + 1;
        Ok(number)
    }

    /// The group has no number any more.
    fn forget(&mut self, group: &Text)
        ensures numbers { (g : List ℕ)
            → number_of self.new g ≡ (if bytes_eq group.now g then None else number_of self.old g) }
        ensures next { self.new.next ≡ self.old.next }
    {
        let _number = self.numbers.remove(group);
    }

    /// The group of the terms has no number any more where no claim is listed in its slot. It takes
    /// no memory.
    pub(crate) fn forget_unused(&mut self, terms: &GroupedTerms, holders: &AddressHolders)
        ensures numbers { AreFewer holders.now self.old self.new }
        ensures unused { (n : ℕ) → number_for self.old terms.now ≡ Some n
            → claims_having holders.now (OfSharingGroup n) ≡ (λ a. [])
            → number_for self.new terms.now ≡ None }
        ensures next { self.new.next ≡ self.old.next }
    {
        let Some(group) = terms.group() else {
            return;
        };
        let Some(number) = self.numbers.get(group) else {
            return;
        };
        if holders.is_unused(&NumberedSlot::OfSharingGroup(*number)) {
            self.forget(group);
        }
    }
}
