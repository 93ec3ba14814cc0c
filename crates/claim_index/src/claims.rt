//! Claims.
ghost use Rattle.std.specs.Prelude.{◌≡◌, IfOk};
ghost use Rattle.std.specs.Option.{option_map};
ghost use Rattle.ip_ranges.specs.Values.{has_address};
ghost use Rattle.sharing_terms.specs.Spelled.{recorded_terms};
ghost use Rattle.claim_index.specs.Claims.{ClaimValue, terms_under};

use crate::grouped::GroupedTerms;
use ip_ranges::Address;
use kube_model::{Key, Record, both};
use mlb_base::{NoMemory, TryCopy};
use sharing_terms::{Terms, read_mark};
use std::alloc::Global;
use std::marker::Model;

/// A key has this record, or may have it, under these terms.
pub struct Claim {
    key: Key,
    holding: Record,
    terms: GroupedTerms,
}

impl Drop for Claim {
    fn drop(self) {
        let Claim {
            key: _,
            holding: _,
            terms: _,
        } = self;
    }
}

impl Model for Claim {
    ghost use Rattle.claim_index.specs.Claims.{ClaimValue};

    ghost Value = { ClaimValue };

    ghost view = { λ c. record { key = c.key; holding = c.holding; terms = c.terms } };
}

impl Claim {
    /// The key has this record: under the terms of its mark, and where it is the mark of none under
    /// the adopted ones.
    pub fn adopting(
        alloc: Global,
        key: &Key,
        holding: &Record,
        adopted: &Terms,
    ) -> Result<Claim, NoMemory>
        ensures { IfOk result (λ c. c ≡ record { key = key.now; holding = holding.now; terms = terms_under holding.now adopted.now }) }
    {
        let terms = match read_mark(alloc, holding.mark.as_str())? {
            Some(terms) => terms,
            None => adopted.copy()?,
        };
        Claim::under(alloc, key, holding, terms)
    }

    /// The key may have this record, under the terms of its mark; `None` where it is the mark of
    /// none.
    pub fn marked(alloc: Global, key: &Key, holding: &Record) -> Result<Option<Claim>, NoMemory>
        ensures { IfOk result (λ c. c
            ≡ option_map (λ terms. record { key = key.now; holding = holding.now; terms = terms }) (recorded_terms holding.now.mark)) }
    {
        match read_mark(alloc, holding.mark.as_str())? {
            Some(terms) => Ok(Some(Claim::under(alloc, key, holding, terms)?)),
            None => Ok(None),
        }
    }

    /// The key has this record, or may have it, under these terms.
    fn under(alloc: Global, key: &Key, holding: &Record, terms: Terms) -> Result<Claim, NoMemory>
        ensures { IfOk result (λ c. c ≡ record { key = key.now; holding = holding.now; terms = terms }) }
    {
        let named = both(key.copy(), holding.copy());
        let ((key, holding), terms) = both(named, GroupedTerms::of(alloc, terms))?;
        Ok(Claim {
            key,
            holding,
            terms,
        })
    }

    /// The key that has the record, or may have it.
    pub fn key(&self) -> &Key
        ensures { result.now ≡ self.now.key }
    {
        &self.key
    }

    /// The record that it has, or may have.
    pub fn holding(&self) -> &Record
        ensures { result.now ≡ self.now.holding }
    {
        &self.holding
    }

    /// The terms under which it has it, or may have it.
    pub(crate) fn terms(&self) -> &Terms
        ensures { result.now ≡ self.now.terms }
    {
        self.terms.terms()
    }

    /// These terms, with their group.
    pub(crate) fn grouped(&self) -> &GroupedTerms
        ensures { result.now ≡ self.now.terms }
    {
        &self.terms
    }

    /// The addresses that it has, or may have.
    pub fn addresses(&self) -> &[Address]
        ensures { result.now ≡ self.now.holding.addresses }
    {
        self.holding.addresses.as_slice()
    }
}

/// Whether the address is one of these.
pub fn has_address(addresses: &[Address], address: &Address) -> bool
    ensures { result ≡ has_address addresses.now address.now }
{
    addresses.iter().any(|a| *address == *a)
}
