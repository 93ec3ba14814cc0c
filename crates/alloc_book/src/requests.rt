//! What a service asks for, and which pools could meet it.
ghost use Rattle.std.specs.Prelude.{◌≡◌, ◌&&◌, ◌||◌, ◌+◌, ◌∷◌, not, [], map, find};
ghost use Rattle.std.specs.Option.{option_copied};
ghost use Rattle.std.specs.List.{list_all, list_any};
ghost use Rattle.ip_ranges.specs.Values.{has_address};
ghost use Rattle.alloc_book.specs.Asking.{alone_of, asked_in, is_asked, is_unreadable, is_given};
ghost use Rattle.alloc_book.specs.Asking.{asking, offering, options_of};
ghost use Rattle.alloc_book.specs.Chosen.{named};
ghost use Rattle.alloc_book.specs.Choose.{addresses_of, wanted_of, one_of_each, is_open};
ghost use Rattle.alloc_book.specs.Choose.{fits_option, all_usable, same_addresses, is_kept};
ghost use Rattle.alloc_book.specs.Choose.{is_home};
ghost use Rattle.alloc_book.specs.Usable.{is_in};

use crate::booking::Book;
use crate::marked::MarkedTerms;
use crate::search::{is_in, may_use};
use claim_index::has_address;
use ip_ranges::{Address, Family};
use kube_labels::{Labels, Text};
use kube_model::{Service, Wanted};
use pool_choice::serves;
use pool_config::{CompiledPool, Config};

pub(crate) fn is_asked(wanted: &Wanted) -> bool
    ensures { result ≡ is_asked wanted.now }
{
    matches!(wanted, Wanted::Asked { .. })
}

pub(crate) fn is_unreadable(wanted: &Wanted) -> bool
    ensures { result ≡ is_unreadable wanted.now }
{
    matches!(wanted, Wanted::Unreadable)
}

/// The addresses that are asked for.
pub(crate) fn asked_in(wanted: &Wanted) -> &[Address]
    ensures { result.now ≡ asked_in wanted.now }
{
    match wanted {
        Wanted::Asked { addresses } => addresses.as_slice(),
        _ => &[],
    }
}

pub(crate) fn is_given(text: &Text) -> bool
    ensures { result ≡ is_given text.now }
{
    !text.as_str().is_empty()
}

fn addresses_of(family: Family, addresses: &[Address]) -> usize
    ensures { result ≡ addresses_of family addresses.now }
{
    let mut count = 0;
    for address in addresses {
        if address.family == family {
            count += 1;
        }
    }
    count
}

fn wanted_of(family: Family, families: &[Family]) -> usize
    ensures { result ≡ wanted_of family families.now }
{
    let mut count = 0;
    for wanted in families {
        if *wanted == family {
            count += 1;
        }
    }
    count
}

/// Whether the addresses are exactly one of each family.
pub(crate) fn one_of_each(families: &[Family], addresses: &[Address]) -> bool
    ensures { result ≡ one_of_each families.now addresses.now }
{
    addresses_of(Family::V4, addresses) == wanted_of(Family::V4, families)
        && addresses_of(Family::V6, addresses) == wanted_of(Family::V6, families)
}

/// The pool of that name.
pub(crate) fn named<'a>(pools: &'a [CompiledPool], name: &Text) -> Option<&'a CompiledPool>
    ensures { option_copied result ≡ named pools.now name.now }
{
    for pool in pools {
        if pool.name == *name {
            return Some(pool);
        }
    }
    None
}

/// The families of which one alone will do: none, unless the service prefers two and takes either.
pub(crate) fn alone_of(service: &Service) -> &[Family]
    ensures { result.now ≡ alone_of service.now.prefer_dual service.now.families }
{
    let families = service.families.as_slice();
    if service.prefer_dual && families.len() == 2 {
        families
    } else {
        &[]
    }
}

/// Whether the addresses are exactly one of each family of one of the service's options.
pub(crate) fn fits_option(service: &Service, addresses: &[Address]) -> bool
    ensures { result ≡ list_any (λ families. one_of_each families addresses.now)
        (options_of service.now) }
{
    one_of_each(service.families.as_slice(), addresses) || fit_alone(alone_of(service), addresses)
}

/// Whether the addresses are exactly one, of one of the families.
fn fit_alone(families: &[Family], addresses: &[Address]) -> bool
    ensures { result ≡ list_any (λ families. one_of_each families addresses.now)
        (map (λ family. family ∷ []) families.now) }
{
    for family in families {
        if one_of_each(&[*family], addresses) {
            return true;
        }
    }
    false
}

/// Whether the service may use the pool: it is served, and asks for this pool, where it asks for
/// one.
fn is_open(service: &Service, terms: &MarkedTerms, namespace: &Labels, pool: &CompiledPool) -> bool
    ensures { result ≡ is_open (offering [] [] service.now namespace.now)
        (asking service.now terms.now) pool.now }
{
    serves(pool, service, namespace)
        && (!is_given(&service.pool_asked) || pool.name == service.pool_asked)
}

/// Whether all of the addresses may be used, from this pool.
pub(crate) fn all_usable(
    book: &Book,
    service: &Service,
    terms: &MarkedTerms,
    pool: &CompiledPool,
    addresses: &[Address],
) -> bool
    ensures { result ≡ all_usable book.now.claims
        (asking service.now terms.now) pool.now addresses.now }
{
    let terms = terms.terms();
    addresses.iter().all(|address| may_use(book, pool, &service.key, terms, address))
}

fn all_have(addresses: &[Address], others: &[Address]) -> bool
    ensures { result ≡ list_all (has_address addresses.now) others.now }
{
    others.iter().all(|address| has_address(addresses, address))
}

/// Whether the lists have the same addresses.
fn same_addresses(xs: &[Address], ys: &[Address]) -> bool
    ensures { result ≡ same_addresses xs.now ys.now }
{
    all_have(ys, xs) && all_have(xs, ys)
}

/// Whether the recorded addresses may stay as addresses of the pool.
fn is_kept(
    book: &Book,
    service: &Service,
    terms: &MarkedTerms,
    namespace: &Labels,
    pool: &CompiledPool,
) -> bool
    ensures { result ≡ is_kept book.now.claims (offering [] [] service.now namespace.now)
        (asking service.now terms.now) pool.now }
{
    is_usable(book, service, terms, namespace, pool)
        && is_as_asked(&service.wanted, service.holding.addresses.as_slice())
}

/// Whether the service may use the pool, its recorded addresses fit it, and all of them may be
/// used.
fn is_usable(
    book: &Book,
    service: &Service,
    terms: &MarkedTerms,
    namespace: &Labels,
    pool: &CompiledPool,
) -> bool
    ensures { result ≡ (is_open (offering [] [] service.now namespace.now)
        (asking service.now terms.now) pool.now
        && fits_option (asking service.now terms.now) service.now.holding.addresses
        && all_usable book.now.claims (asking service.now terms.now) pool.now
        service.now.holding.addresses) }
{
    is_fitting(service, terms, namespace, pool)
        && all_usable(
            book,
            service,
            terms,
            pool,
            service.holding.addresses.as_slice(),
        )
}

/// Whether the service may use the pool, and its recorded addresses fit it.
fn is_fitting(
    service: &Service,
    terms: &MarkedTerms,
    namespace: &Labels,
    pool: &CompiledPool,
) -> bool
    ensures { result ≡ (is_open (offering [] [] service.now namespace.now)
        (asking service.now terms.now) pool.now
        && fits_option (asking service.now terms.now) service.now.holding.addresses) }
{
    is_open(service, terms, namespace, pool)
        && fits_option(service, service.holding.addresses.as_slice())
}

/// Whether these are the addresses asked for, where some are.
fn is_as_asked(wanted: &Wanted, addresses: &[Address]) -> bool
    ensures { result ≡ (not (is_asked wanted.now)
        || same_addresses addresses.now (asked_in wanted.now)) }
{
    !is_asked(wanted) || same_addresses(addresses, asked_in(wanted))
}

/// Whether the addresses asked for lie in the pool, which the service may use.
fn is_home(service: &Service, terms: &MarkedTerms, namespace: &Labels, pool: &CompiledPool) -> bool
    ensures { result ≡ is_home (offering [] [] service.now namespace.now)
        (asking service.now terms.now) pool.now }
{
    is_open(service, terms, namespace, pool) && all_in(pool, asked_in(&service.wanted))
}

fn all_in(pool: &CompiledPool, addresses: &[Address]) -> bool
    ensures { result ≡ list_all (is_in pool.now) addresses.now }
{
    addresses.iter().all(|address| is_in(pool, address))
}

/// The first pool in which the recorded addresses may stay. Where there are some, it is the one
/// that has the first of them.
pub(crate) fn kept_in<'a>(
    book: &Book,
    config: &'a Config,
    service: &Service,
    terms: &MarkedTerms,
    namespace: &Labels,
) -> Option<&'a CompiledPool>
    ensures { option_copied result
        ≡ find (is_kept book.now.claims (offering [] [] service.now namespace.now)
        (asking service.now terms.now)) config.now.pools }
{
    let Some(address) = service.holding.addresses.as_slice().first() else {
        return first_kept(book, config.pools.as_slice(), service, terms, namespace);
    };
    let pool = config.pool_with(address)?;
    if is_kept(book, service, terms, namespace, pool) {
        return Some(pool);
    }
    None
}

fn first_kept<'a>(
    book: &Book,
    pools: &'a [CompiledPool],
    service: &Service,
    terms: &MarkedTerms,
    namespace: &Labels,
) -> Option<&'a CompiledPool>
    ensures { option_copied result
        ≡ find (is_kept book.now.claims (offering [] [] service.now namespace.now)
        (asking service.now terms.now)) pools.now }
{
    for pool in pools {
        if is_kept(book, service, terms, namespace, pool) {
            return Some(pool);
        }
    }
    None
}

/// The first pool in which the addresses asked for lie. Where there are some, it is the one that
/// has the first of them.
pub(crate) fn home_of<'a>(
    config: &'a Config,
    service: &Service,
    terms: &MarkedTerms,
    namespace: &Labels,
) -> Option<&'a CompiledPool>
    ensures { option_copied result
        ≡ find (is_home (offering [] [] service.now namespace.now) (asking service.now terms.now))
        config.now.pools }
{
    let Some(address) = asked_in(&service.wanted).first() else {
        return first_home(config.pools.as_slice(), service, terms, namespace);
    };
    let pool = config.pool_with(address)?;
    if is_home(service, terms, namespace, pool) {
        return Some(pool);
    }
    None
}

fn first_home<'a>(
    pools: &'a [CompiledPool],
    service: &Service,
    terms: &MarkedTerms,
    namespace: &Labels,
) -> Option<&'a CompiledPool>
    ensures { option_copied result
        ≡ find (is_home (offering [] [] service.now namespace.now) (asking service.now terms.now))
        pools.now }
{
    for pool in pools {
        if is_home(service, terms, namespace, pool) {
            return Some(pool);
        }
    }
    None
}
