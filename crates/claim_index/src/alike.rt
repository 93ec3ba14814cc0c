//! Terms that are one, and terms that may share an address where they have no port in common.
ghost use Rattle.std.specs.Prelude.{◌≡◌};
ghost use Rattle.claim_index.specs.Alike.{are_alike, same_terms};

use sharing_terms::{Terms, is_alike};

/// Whether the terms are of one sharing key, which isn't empty, and of backends that are alike.
pub(crate) fn are_alike(terms: &Terms, held: &Terms) -> bool
    ensures { result ≡ are_alike terms.now held.now }
{
    terms.key == held.key
        && !terms.key.as_str().is_empty()
        && is_alike(&terms.backend, &held.backend)
}

/// Whether the terms are one.
pub(crate) fn same_terms(a: &Terms, b: &Terms) -> bool
    ensures { result ≡ same_terms a.now b.now }
{
    a.key == b.key && a.ports.as_slice() == b.ports.as_slice() && is_alike(&a.backend, &b.backend)
}
