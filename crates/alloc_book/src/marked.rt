//! The terms of a service, with their mark.
ghost use Rattle.std.specs.Prelude.{◌≡◌, IfOk, OnOk};
ghost use Rattle.sharing_terms.specs.Marked.{AreTerms};
ghost use Rattle.sharing_terms.specs.Marks.{mark_of};
ghost use Rattle.sharing_terms.specs.Terms.{terms_of};

use claim_index::GroupedTerms;
use kube_labels::Text;
use kube_model::Service;
use mlb_base::NoMemory;
use sharing_terms::{mark_text, terms_of};
use std::alloc::Global;
use std::marker::Model;

/// Terms, with their mark. Contracts see the terms.
#[derive(Drop)]
pub(crate) struct MarkedTerms {
    terms: GroupedTerms,
    mark: Text,
}

impl Model for MarkedTerms {
    ghost use Rattle.std.specs.Prelude.{◌≡◌};
    ghost use Rattle.sharing_terms.specs.declared.terms.Terms.{Terms};
    ghost use Rattle.sharing_terms.specs.Marks.{mark_of};

    ghost Value = { Terms };

    ghost view = { λ m. m.terms };

    ghost invariant = { λ m. m.mark ≡ mark_of m.terms };
}

impl MarkedTerms {
    /// The terms that the service has now.
    pub(crate) fn of(alloc: Global, service: &Service) -> Result<MarkedTerms, NoMemory>
        ensures value { IfOk result (λ terms. terms ≡ terms_of service.now) }
        ensures terms { OnOk result (AreTerms (terms_of service.now)) }
    {
        let terms = terms_of(alloc, service)?;
        let Ok(mark) = mark_text(alloc, &terms) else {
            drop(terms);
            return Err(NoMemory);
        };
        Ok(MarkedTerms {
            terms: GroupedTerms::of(alloc, terms)?,
            mark,
        })
    }

    pub(crate) fn terms(&self) -> &GroupedTerms
        ensures { result.now ≡ self.now }
    {
        &self.terms
    }

    pub(crate) fn mark(&self) -> &Text
        ensures { result.now ≡ mark_of self.now }
    {
        &self.mark
    }
}
