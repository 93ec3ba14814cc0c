//! The claims that are listed at the addresses of one family.
ghost use Rattle.std.specs.Prelude.{◌≡◌, ◌↔◌, ◌≤◌, ◌<◌, ◌+◌, ◌==◌, ℕ, ◌∷◌, ◌++◌, [], true, not};
ghost use Rattle.std.specs.Prelude.{filter, if◌then◌else◌, IsTrue, OnOk, IfOk, IfSome, IfNone};
ghost use Rattle.mlb_base.specs.Items.{is_nil};
ghost use Rattle.address_holders.specs.Holders.{claims_at, claim_room_at, is_listed, is_listed_but};
ghost use Rattle.address_holders.specs.Holders.{is_open_at};
ghost use Rattle.number_sets.specs.Least.{IsLeastIn, NonePasses};

use mlb_base::NoMemory;
use number_sets::BlockSet;
use numbered_items::InvertedIndex;
use std::alloc::Global;
use std::marker::Model;

/// By each address of one family the numbers of the claims that are listed there, and beside them
/// the runs of addresses that have such a claim. A look-up takes the logarithm of the number of
/// addresses.
#[derive(Drop)]
pub(crate) struct Claimants {
    by_number: InvertedIndex<u128>,
    held: BlockSet,
}

impl Model for Claimants {
    ghost use Rattle.std.specs.Prelude.{◌≡◌, not};
    ghost use Rattle.std.specs.Ordering.{nat_cmp};
    ghost use Rattle.mlb_base.specs.Items.{is_nil};
    ghost use Rattle.number_sets.specs.Runs.{has};
    ghost use Rattle.numbered_items.specs.Index.{numbers_under};
    ghost use Rattle.address_holders.specs.Holders.{ClaimantsValue};

    ghost Value = { ClaimantsValue };

    ghost view = { λ c. record { claims = c.by_number; room = c.held.room } };

    ghost invariant = { λ c. has c.held ≡ (λ n. not (is_nil (numbers_under nat_cmp c.by_number n))) };
}

impl Claimants {
    /// No claim is listed. It takes no memory. It is said whether addresses are sought here inside
    /// their blocks.
    pub(crate) fn new(alloc: Global, inside: bool) -> Claimants
        ensures numbers { claims_at result ≡ (λ n. []) }
    {
        Claimants {
            by_number: InvertedIndex::new(alloc),
            held: BlockSet::new(alloc, inside),
        }
    }

    /// No claim is listed, and there is room for one on the address, and for so many addresses.
    pub(crate) fn with_room(
        alloc: Global,
        inside: bool,
        number: u128,
        more: usize,
    ) -> Result<Claimants, NoMemory>
        ensures numbers { IfOk result (λ c. claims_at c ≡ (λ n. [])) }
        ensures claims { IfOk result (λ c. 0 < claim_room_at c number) }
        ensures addresses { IfOk result (λ c. more ≤ c.room) }
    {
        let mut claimants = Claimants::new(alloc, inside);
        if claimants.reserve(number, more).is_err() {
            drop(claimants);
            return Err(NoMemory);
        }
        Ok(claimants)
    }

    /// Makes room for a claim more on the address, and for so many addresses more.
    pub(crate) fn reserve(&mut self, number: u128, more: usize) -> Result<(), NoMemory>
        ensures numbers { claims_at self.new ≡ claims_at self.old }
        ensures claims { OnOk result (0 < claim_room_at self.new number) }
        ensures addresses { OnOk result (more ≤ self.new.room) }
        ensures claims_kept { (n : ℕ) → claim_room_at self.old n ≤ claim_room_at self.new n }
        ensures addresses_kept { self.old.room ≤ self.new.room }
    {
        self.by_number.reserve(number, 1)?;
        self.held.reserve(more)
    }

    /// The claim is listed at the address. There is room for it.
    pub(crate) fn add(&mut self, number: u128, claim: u64)
        requires claims { 0 < claim_room_at self.old number }
        requires addresses { 0 < self.old.room }
        ensures numbers { claims_at self.new
            ≡ (λ n. if number == n then claims_at self.old n ++ claim ∷ []
            else claims_at self.old n) }
        ensures claims { (n : ℕ) → claim_room_at self.old n
            ≤ claim_room_at self.new n + (if number == n then 1 else 0) }
        ensures addresses { self.old.room ≤ self.new.room + 1 }
    {
        self.held.insert(number);
        self.by_number.add(&number, claim);
    }

    /// The claim isn't listed at the address. It takes no memory.
    pub(crate) fn remove(&mut self, number: u128, claim: u64)
        ensures numbers { claims_at self.new
            ≡ (λ n. if number == n then filter (λ c. not (c == claim)) (claims_at self.old n)
            else claims_at self.old n) }
    {
        self.by_number.remove(&number, claim);
        if self.by_number.numbers(&number).is_empty() {
            self.held.remove(number);
        }
    }

    /// The numbers of the claims that are listed at the address.
    pub(crate) fn numbers(&self, number: u128) -> &[u64]
        ensures { result.now ≡ claims_at self.now number }
    {
        self.by_number.numbers(&number)
    }

    /// The least address from low to high at which no claim is listed, and that is no edge where it
    /// is sought inside blocks.
    pub(crate) fn first_unclaimed(&self, inside: bool, low: u128, high: u128) -> Option<u128>
        ensures some { IfSome result (λ n. IsLeastIn (is_open_at inside self.now) low high n) }
        ensures none { IfNone result (NonePasses (is_open_at inside self.now) low high) }
    {
        self.held.first_absent(inside, low, high)
    }

    /// The least address from low to high at which a claim is listed.
    pub(crate) fn first_claimed(&self, low: u128, high: u128) -> Option<u128>
        ensures some { IfSome result (λ n. IsLeastIn
            (λ m. not (is_nil (claims_at self.now m))) low high n) }
        ensures none { IfNone result (NonePasses
            (λ m. not (is_nil (claims_at self.now m))) low high) }
    {
        self.held.first_present(low, high)
    }

    /// The least address from low to high at which a claim is listed here and none there, where all
    /// these addresses have claims here too.
    pub(crate) fn first_beyond(&self, fewer: &Claimants, low: u128, high: u128) -> Option<u128>
        requires { (n : ℕ) → is_listed fewer.now n ≡ true → is_listed self.now n ≡ true }
        ensures some { IfSome result (λ n. IsLeastIn
            (is_listed_but self.now fewer.now) low high n) }
        ensures none { IfNone result (NonePasses (is_listed_but self.now fewer.now) low high) }
    {
        self.held.first_beyond(&fewer.held, low, high)
    }

    /// Whether no claim is listed at any address.
    pub(crate) fn is_empty(&self) -> bool
        ensures { IsTrue result ↔ (claims_at self.now ≡ (λ n. [])) }
    {
        self.held.is_empty()
    }
}
