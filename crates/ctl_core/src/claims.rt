//! What a change of services makes of the claims.
ghost use Rattle.std.specs.Prelude.{◌≡◌, IfOk};
ghost use Rattle.alloc_book.specs.Book.{HasRoom};
ghost use Rattle.claim_index.specs.Claims.{terms_under};
ghost use Rattle.core_rules.specs.Core.{no_terms, shown_terms, terms_in};
ghost use Rattle.core_rules.specs.Replied.{put_terms};
ghost use Rattle.core_rules.specs.Take.{have_claims, listed_claims};

use alloc_book::{Book, Claim};
use core_keys::{Listed, Services};
use kube_labels::Text;
use kube_model::{Key, Put, Record, Service};
use mlb_base::NoMemory;
use object_cache::ObjectCache;
use sharing_terms::{Backend, PortSet, Terms, terms_of};
use std::alloc::Global;

/// The record as it is claimed: under the terms of its mark, and where it is the mark of none under
/// the adopted ones.
fn adopting(alloc: Global, key: &Key, holding: &Record, adopted: Terms) -> Result<Claim, NoMemory>
    ensures { IfOk result (λ c. c ≡ record { key = key.now; holding = holding.now; terms = terms_under holding.now adopted }) }
{
    let claim = Claim::adopting(alloc, key, holding, &adopted);
    claim
}

/// The claim of a service that is shown: it adopts the terms that the service has now.
pub(crate) fn shown_claim(alloc: Global, service: &Service) -> Result<Claim, NoMemory>
    ensures { IfOk result (λ c. c ≡ record { key = service.now.key; holding = service.now.holding; terms = shown_terms service.now }) }
{
    let terms = terms_of(alloc, service)?;
    adopting(alloc, &service.key, &service.holding, terms)
}

/// The claim of a put: it adopts the terms of the held service.
pub(crate) fn claim_of(alloc: Global, cache: &ObjectCache, put: &Put) -> Result<Claim, NoMemory>
    ensures { IfOk result (λ c. c ≡ record { key = put.now.key; holding = put.now.holding; terms = put_terms cache.now put.now }) }
{
    let terms = terms_in(alloc, cache, &put.key)?;
    adopting(alloc, &put.key, &put.holding, terms)
}

/// The claim of the put, and room for it.
pub(crate) fn reserved_claim(
    alloc: Global,
    cache: &ObjectCache,
    book: &mut Book,
    put: &Put,
) -> Result<Claim, NoMemory>
    ensures claim { IfOk result (λ c. c ≡ record { key = put.now.key; holding = put.now.holding; terms = put_terms cache.now put.now }) }
    ensures room { IfOk result (HasRoom book.new) }
    ensures claims { book.new.claims ≡ book.old.claims }
    ensures entries { book.new.entries ≡ book.old.entries }
{
    let claim = claim_of(alloc, cache, put)?;
    let Ok(()) = book.reserve(&claim) else {
        return Err(NoMemory);
    };
    Ok(claim)
}

/// The terms of the held service; one that isn't held has no sharing key and no port.
fn terms_in(alloc: Global, cache: &ObjectCache, key: &Key) -> Result<Terms, NoMemory>
    ensures { IfOk result (λ terms. terms ≡ terms_in cache.now key.now) }
{
    match cache.service(key) {
        Some(service) => terms_of(alloc, service),
        None => no_terms(alloc),
    }
}

fn no_terms(alloc: Global) -> Result<Terms, NoMemory>
    ensures { IfOk result (λ terms. terms ≡ no_terms) }
{
    Ok(Terms {
        key: Text::new(alloc, "")?,
        ports: PortSet::of(alloc, &[])?,
        backend: Backend::Cluster,
    })
}

/// Whether a service has a claim that isn't held, or wasn't listed.
pub(crate) fn have_claims(book: &Book, services: &Services) -> bool
    ensures { result ≡ have_claims services.now book.now.claims }
{
    book.has_unlisted(&Listed { services })
}

/// The claims of the services that are held and were listed stay, and no others.
pub(crate) fn keep_listed_claims(book: &mut Book, services: &Services)
    ensures claims { book.new.claims ≡ listed_claims services.now book.old.claims }
    ensures entries { book.new.entries ≡ book.old.entries }
{
    book.drop_unlisted(&Listed { services });
}
