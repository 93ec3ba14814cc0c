//! Terms, with their group.
ghost use Rattle.std.specs.Prelude.{◌≡◌, ◌≢◌, IfOk, OnOk, Some};
ghost use Rattle.std.specs.Option.{option_copied};
ghost use Rattle.claim_index.specs.SharingGroups.{sharing_group_of, group_of, HasSharingGroup};
ghost use Rattle.claim_index.specs.SharingGroups.{HasGroup};

use kube_labels::Text;
use kube_model::both;
use mlb_base::{NoMemory, TryCopy};
use sharing_terms::{PortSet, Terms, mark_text};
use std::alloc::Global;
use std::marker::Model;

/// Terms, with the group of the claims that have a sharing key and backend in common with them.
/// Contracts see the terms.
pub struct GroupedTerms {
    terms: Terms,
    group: Option<Text>,
}

impl Drop for GroupedTerms {
    fn drop(self) {
        let GroupedTerms { terms: _, group: _ } = self;
    }
}

impl Model for GroupedTerms {
    ghost use Rattle.sharing_terms.specs.declared.terms.Terms.{Terms};
    ghost use Rattle.claim_index.specs.SharingGroups.{HasGroup};

    ghost Value = { Terms };

    ghost view = { λ g. g.terms };

    ghost invariant = { λ g. HasGroup g.terms g.group };
}

impl GroupedTerms {
    /// The terms, with their group.
    pub fn of(alloc: Global, terms: Terms) -> Result<GroupedTerms, NoMemory>
        ensures { IfOk result (λ grouped. grouped ≡ terms) }
    {
        let Ok(group) = group_of(alloc, &terms) else {
            drop(terms);
            return Err(NoMemory);
        };
        Ok(GroupedTerms { terms, group })
    }

    pub fn terms(&self) -> &Terms
        ensures { result.now ≡ self.now }
    {
        &self.terms
    }

    /// The group of the terms; none where they have no sharing key.
    pub(crate) fn group(&self) -> Option<&Text>
        ensures group { option_copied result ≡ group_of self.now }
        ensures grouped { HasSharingGroup self.now }
    {
        self.group.as_ref()
    }
}

/// The group of the terms.
fn group_of(alloc: Global, terms: &Terms) -> Result<Option<Text>, NoMemory>
    ensures { IfOk result (λ group. HasGroup terms.now group) }
{
    if terms.key.as_str().is_empty() {
        return Ok(None);
    }
    Ok(Some(group_text(alloc, terms)?))
}

/// The mark of the terms without their ports.
#[tactic(auto, unfolding(crate::specs::SharingGroups::sharing_group_of))]
fn group_text(alloc: Global, terms: &Terms) -> Result<Text, NoMemory>
    ensures group { IfOk result (λ group. group ≡ sharing_group_of terms.now) }
    ensures grouped { OnOk result (HasSharingGroup terms.now) }
{
    let own = both(terms.key.copy(), terms.backend.copy());
    let ((key, backend), ports) = both(own, PortSet::of(alloc, &[]))?;
    let portless = Terms {
        key,
        ports,
        backend,
    };
    let group = mark_text(alloc, &portless);
    drop(portless);
    group
}
