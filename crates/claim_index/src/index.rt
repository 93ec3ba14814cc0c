//! The claims under their numbers, and by what each is found.
ghost use Rattle.std.specs.Prelude.{◌≡◌, ◌≤◌, ◌<◌, ◌+◌, ◌^◌, ◌==◌, ◌∷◌, ◌++◌, [], true, false, not};
ghost use Rattle.std.specs.Prelude.{nat_lt, length, filter, find, Some, OnOk, IfSome, IfNone};
ghost use Rattle.std.specs.List.{All, list_all};
ghost use Rattle.std.specs.List.Sorted.{IsStrictlySortedBy};
ghost use Rattle.std.specs.Map.{lookup, keys_of, values_of};
ghost use Rattle.std.specs.Option.{option_copied, option_map};
ghost use Rattle.std.specs.Ordering.{nat_cmp};
ghost use Rattle.kube_model.specs.Records.{is_assigned};
ghost use Rattle.mlb_base.specs.Items.{is_nil};
ghost use Rattle.claim_index.specs.Claims.{AreAssigned, loses, claims_it, has_claims};
ghost use Rattle.claim_index.specs.Room.{HasRoomFor};
ghost use Rattle.claim_index.specs.GroupNumbers.{number_for};
ghost use Rattle.claim_index.specs.SharingGroups.{HasSharingGroup};
ghost use Rattle.claim_index.specs.Slots.{Any};
ghost use Rattle.claim_index.specs.Index.{numbers_of, first_but, first_other, is_open};
ghost use Rattle.claim_index.specs.Index.{NoneShareable};
ghost use Rattle.claim_index.specs.Reading.{is_claim_under, gives_way, is_of, yields_port, is_odd};
ghost use Rattle.claim_index.specs.Reading.{belongs, leaves};
ghost use Rattle.address_holders.specs.Holders.{address_of};
ghost use Rattle.number_sets.specs.Least.{IsLeastIn, NonePasses};

use crate::alike::{are_alike, same_terms};
use crate::claims::{Claim, has_address};
use crate::group_numbers::GroupNumbers;
use crate::grouped::GroupedTerms;
use crate::growth::{add_claim, reserve_claim};
use crate::removal::remove_claim;
use address_holders::{AddressHolders, NumberedSlot};
use ip_ranges::{Address, Family};
use kube_model::{Key, Port};
use mlb_base::{NoMemory, TryCopy};
use numbered_items::{InvertedIndex, NumberedList};
use sharing_terms::{Terms, may_share};
use std::alloc::Global;
use std::marker::Model;

/// The claims, numbered in the order in which they came, and the numbers of those of each key and
/// of those that have each address.
pub struct ClaimIndex {
    claims: NumberedList<Claim>,
    by_key: InvertedIndex<Key>,
    groups: GroupNumbers,
    holders: AddressHolders,
}

impl Drop for ClaimIndex {
    fn drop(self) {
        let ClaimIndex {
            claims: _,
            by_key: _,
            groups: _,
            holders: _,
        } = self;
    }
}

impl Model for ClaimIndex {
    ghost use Rattle.claim_index.specs.Index.{ClaimIndexValue, IsIndexed};

    ghost Value = { ClaimIndexValue };

    ghost view = { λ c. record {
      items = c.claims.items;
      room = record { claims = c.claims.room; keys = c.by_key; groups = c.groups; holders = c.holders };
    } };

    ghost invariant = { λ c. IsIndexed c.claims.items c.by_key c.groups c.holders };
}

impl ClaimIndex {
    /// No claims, which takes no memory.
    pub fn new(alloc: Global) -> ClaimIndex
        ensures { result.items ≡ [] }
    {
        ClaimIndex {
            claims: NumberedList::new(alloc),
            by_key: InvertedIndex::new(alloc),
            groups: GroupNumbers::new(alloc),
            holders: AddressHolders::new(alloc),
        }
    }

    /// Makes room for the claim. Where there is no memory all claims stay.
    pub fn reserve(&mut self, claim: &Claim) -> Result<(), NoMemory>
        ensures items { self.new.items ≡ self.old.items }
        ensures room { OnOk result (HasRoomFor self.new.room claim.now) }
    {
        self.claims.reserve()?;
        self.by_key.reserve(claim.key().copy()?, 1)?;
        let group = self.groups.give(claim.grouped())?;
        reserve_claim(&mut self.holders, claim, group)
    }

    /// The claim is added at the end, and its number is answered. There is room for it, so it takes
    /// no memory.
    pub fn add(&mut self, claim: Claim) -> u64
        requires room { HasRoomFor self.old.room claim }
        requires assigned { is_assigned claim.holding ≡ true }
        ensures items { self.new.items ≡ self.old.items ++ (result, claim) ∷ [] }
        ensures fresh { All (λ p. p.0 < result) self.old.items }
    {
        let number = self.claims.push(claim);
        if let Some(claim) = self.claims.get(number) {
            self.by_key.add(claim.key(), number);
            let group = self.groups.number(claim.grouped());
            add_claim(&mut self.holders, claim, group, number);
        }
        number
    }

    /// The claim of that number isn't there any more. It takes no memory.
    pub fn remove(&mut self, number: u64)
        ensures { self.new.items ≡ filter (λ p. not (p.0 == number)) self.old.items }
    {
        let Some(claim) = self.claims.remove(number) else {
            return;
        };
        self.by_key.remove(claim.key(), number);
        let group = self.groups.number(claim.grouped());
        remove_claim(&mut self.holders, &claim, group, number);
        self.groups.forget_unused(claim.grouped(), &self.holders);
        drop(claim);
    }

    /// The numbers of the claims of the key.
    pub fn numbers_of(&self, key: &Key) -> &[u64]
        ensures { result.now ≡ numbers_of key.now self.now.items }
    {
        self.by_key.numbers(key)
    }

    /// The claim of that number.
    pub fn claim(&self, number: u64) -> Option<&Claim>
        ensures claim { option_copied result ≡ lookup (λ n. n == number) self.now.items }
        ensures ascending { IsStrictlySortedBy nat_cmp (keys_of self.now.items) }
        ensures assigned { AreAssigned (values_of self.now.items) }
    {
        self.claims.get(number)
    }

    /// The first claim whose number is this one or a greater one, with its number, which is below
    /// 2^64 - 1.
    pub fn first_from(&self, number: u64) -> Option<(u64, &Claim)>
        ensures item { option_map (λ p. (p.0, p.1.now)) result
            ≡ find (λ p. not (nat_lt p.0 number)) self.now.items }
        ensures within { IfSome result (λ p. p.0 + 1 < 2 ^ 64) }
        ensures ascending { IsStrictlySortedBy nat_cmp (keys_of self.now.items) }
    {
        self.claims.first_from(number)
    }

    /// The first number of another claim of the same key.
    pub fn first_other(&self, number: u64) -> Option<u64>
        ensures other { result ≡ first_other number self.now.items }
        ensures ascending { IsStrictlySortedBy nat_cmp (keys_of self.now.items) }
    {
        let claim = self.claims.get(number)?;
        first_but(self.by_key.numbers(claim.key()), number)
    }

    /// Whether the claim's key has another claim than this one.
    pub fn loses(&self, claim: &Claim) -> bool
        ensures value { result ≡ loses claim.now.key claim.now.holding claim.now.terms
            (values_of self.now.items) }
        ensures assigned { AreAssigned (values_of self.now.items) }
    {
        let claims = &self.claims;
        self.by_key
            .numbers(claim.key())
            .iter()
            .any(|number| !is_claim_under(claims, *number, claim))
    }

    /// Whether the claim's key has this very claim.
    pub fn claims_it(&self, claim: &Claim) -> bool
        ensures { result ≡ claims_it claim.now.key claim.now.holding claim.now.terms
            (values_of self.now.items) }
    {
        let claims = &self.claims;
        self.by_key
            .numbers(claim.key())
            .iter()
            .any(|number| is_claim_under(claims, *number, claim))
    }

    /// Whether the key has a claim.
    pub fn has_claims(&self, key: &Key) -> bool
        ensures { result ≡ has_claims key.now (values_of self.now.items) }
    {
        !self.by_key.numbers(key).is_empty()
    }

    /// Whether each claim leaves the address to a service of this key and these terms. Where they
    /// have a sharing key, only the claims of the key and those with a port of the terms are asked.
    pub fn all_leave(&self, key: &Key, terms: &GroupedTerms, address: &Address) -> bool
        ensures { result ≡ list_all (leaves key.now terms.now address.now)
            (values_of self.now.items) }
    {
        match self.groups.number(terms) {
            Some(group) => {
                self.all_belong(key, terms, group, address)
                    && self.all_yield(key, terms, group, address)
            }
            // No claim has a sharing key and backend in common with the terms.
            None => self.all_give_way(key, terms.terms(), address),
        }
    }

    /// Whether each claim on the address is of the key, or alike with the terms, whose group has
    /// this number. That is so where as many claims aren't of their group as there are such of the
    /// key.
    fn all_belong(&self, key: &Key, terms: &GroupedTerms, group: u64, address: &Address) -> bool
        requires grouped { HasSharingGroup terms.now }
        requires number { number_for self.now.room.groups terms.now ≡ Some group }
        ensures { result ≡ list_all (belongs key.now terms.now address.now)
            (values_of self.now.items) }
    {
        let slot = NumberedSlot::OfSharingGroup(group);
        let all = self.holders.numbers(&NumberedSlot::Any, address).len();
        let grouped = self.holders.numbers(&slot, address).len();
        let own = self.by_key.numbers(key);
        all.saturating_sub(grouped) == count_odd(&self.claims, own, terms.terms(), address)
    }

    /// Whether each claim of the terms' group, which has this number, that has the address and a
    /// port of theirs is of the key.
    fn all_yield(&self, key: &Key, terms: &GroupedTerms, group: u64, address: &Address) -> bool
        requires { number_for self.now.room.groups terms.now ≡ Some group }
        ensures { result ≡ list_all (yields_port
            (values_of self.now.items) key.now terms.now address.now) terms.now.ports }
    {
        terms
            .terms()
            .ports
            .as_slice()
            .iter()
            .all(|port| self.yields_slot(key, terms, *port, group, address))
    }

    /// Whether each claim of the terms' group, which has this number, that has the address and the
    /// port is of the key.
    fn yields_slot(
        &self,
        key: &Key,
        terms: &GroupedTerms,
        port: Port,
        group: u64,
        address: &Address,
    ) -> bool
        requires { number_for self.now.room.groups terms.now ≡ Some group }
        ensures { result ≡ yields_port
            (values_of self.now.items) key.now terms.now address.now port }
    {
        let slot = NumberedSlot::OfPort { port, group };
        let claims = &self.claims;
        self.holders
            .numbers(&slot, address)
            .iter()
            .all(|number| is_of(claims, *number, key))
    }

    /// The same as `all_leave`, by each claim on the address.
    fn all_give_way(&self, key: &Key, terms: &Terms, address: &Address) -> bool
        ensures { result ≡ list_all (leaves key.now terms.now address.now)
            (values_of self.now.items) }
    {
        let claims = &self.claims;
        self.holders
            .numbers(&NumberedSlot::Any, address)
            .iter()
            .all(|number| gives_way(claims, *number, key, terms))
    }

    /// The least number from low to high of an address of the family that no claim has, and that
    /// isn't a buggy one where those are avoided; in the logarithm of the number of addresses.
    pub fn first_unclaimed(
        &self,
        avoiding: bool,
        family: Family,
        low: u128,
        high: u128,
    ) -> Option<u128>
        ensures some { IfSome result (λ n. IsLeastIn
            (λ m. is_open avoiding Any (values_of self.now.items) (address_of family m)) low high
            n) }
        ensures none { IfNone result (NonePasses
            (λ m. is_open avoiding Any (values_of self.now.items) (address_of family m)) low high) }
    {
        self.holders
            .first_unclaimed(&NumberedSlot::Any, avoiding, family, low, high)
    }

    /// A number from low to high before which no address of the family is one that claims of the
    /// terms' group have and none of these with a port of theirs; `None` where none up to high is.
    /// For each port it takes the square of the logarithm of the number of addresses.
    pub fn first_shareable(
        &self,
        family: Family,
        terms: &GroupedTerms,
        low: u128,
        high: u128,
    ) -> Option<u128>
        requires { is_nil terms.now.key ≡ false }
        ensures some { IfSome result (λ n. (low ≤ n) × (n ≤ high)
            × NoneShareable family terms.now (values_of self.now.items) low n) }
        ensures none { IfNone result (NoneShareable family terms.now (values_of self.now.items) low
            (high + 1)) }
    {
        let group = self.groups.number(terms)?;
        let all = NumberedSlot::OfSharingGroup(group);
        let mut left = self.holders.first_claimed(&all, family, low, high)?;
        for port in terms.terms().ports.as_slice() {
            let slot = NumberedSlot::OfPort { port: *port, group };
            left = self.holders.first_beyond(&all, &slot, family, left, high)?;
        }
        Some(left)
    }
}

fn first_but(numbers: &[u64], number: u64) -> Option<u64>
    ensures { result ≡ first_but number numbers.now }
{
    numbers.iter().copied().find(|other| *other != number)
}

/// Whether the claim of that number is of this one's record and terms.
fn is_claim_under(claims: &NumberedList<Claim>, number: u64, claim: &Claim) -> bool
    ensures value { result ≡ is_claim_under claim.now.holding claim.now.terms
        (lookup (λ n. n == number) claims.now.items) }
    ensures ascending { IsStrictlySortedBy nat_cmp (keys_of claims.now.items) }
{
    match claims.get(number) {
        Some(other) => {
            other.holding().is_same(claim.holding()) && same_terms(other.terms(), claim.terms())
        }
        None => false,
    }
}

fn gives_way(claims: &NumberedList<Claim>, number: u64, key: &Key, terms: &Terms) -> bool
    ensures value { result ≡ gives_way key.now terms.now
        (lookup (λ n. n == number) claims.now.items) }
    ensures ascending { IsStrictlySortedBy nat_cmp (keys_of claims.now.items) }
{
    let Some(claim) = claims.get(number) else {
        return true;
    };
    claim.key() == key || may_share(terms, claim.terms())
}

fn is_of(claims: &NumberedList<Claim>, number: u64, key: &Key) -> bool
    ensures value { result ≡ is_of key.now (lookup (λ n. n == number) claims.now.items) }
    ensures ascending { IsStrictlySortedBy nat_cmp (keys_of claims.now.items) }
{
    match claims.get(number) {
        Some(claim) => claim.key() == key,
        None => true,
    }
}

/// How many of the claims of the numbers have the address under terms that aren't alike with these.
fn count_odd(
    claims: &NumberedList<Claim>,
    numbers: &[u64],
    terms: &Terms,
    address: &Address,
) -> usize
    ensures count { result ≡ length
        (filter (λ n. is_odd terms.now address.now (lookup (λ m. m == n) claims.now.items))
        numbers.now) }
    ensures ascending { is_nil numbers.now ≡ false
        → IsStrictlySortedBy nat_cmp (keys_of claims.now.items) }
{
    let mut count = 0;
    for number in numbers {
        if is_odd(claims, *number, terms, address) {
            count += 1;
        }
    }
    count
}

/// Whether the claim of that number has the address under terms that aren't alike with these.
fn is_odd(claims: &NumberedList<Claim>, number: u64, terms: &Terms, address: &Address) -> bool
    ensures value { result ≡ is_odd terms.now address.now
        (lookup (λ n. n == number) claims.now.items) }
    ensures ascending { IsStrictlySortedBy nat_cmp (keys_of claims.now.items) }
{
    match claims.get(number) {
        Some(claim) => {
            has_address(claim.addresses(), address) && !are_alike(claim.terms(), terms)
        }
        None => false,
    }
}
