//! Whether a service waits for an address that it could have.

use ip_ranges::{Span, parse_entry};
use kube_model::{Object, Pool, Service};
use status_store::{Store, Stored};

/// More addresses than a pool has here.
const MOST_ADDRESSES: u64 = 16;

fn has_number(service: &Service, span: &Span, number: u128) -> bool {
    let addresses = service.holding.addresses.as_slice();
    addresses.iter().any(|address| address.family == span.family && address.number == number)
}

fn is_recorded(stored: &[Stored], span: &Span, number: u128) -> bool {
    stored.iter().any(|held| match &held.object {
        Object::Service(service) => has_number(service, span, number),
        _ => false,
    })
}

fn span_has_free(stored: &[Stored], span: &Span) -> bool {
    for offset in 0..MOST_ADDRESSES {
        let number = span.low.saturating_add(u128::from(offset));
        if number <= span.high && !is_recorded(stored, span, number) {
            return true;
        }
    }
    false
}

fn entry_has_free(stored: &[Stored], entry: &str) -> bool {
    match parse_entry(entry) {
        Ok(span) => span_has_free(stored, &span),
        Err(_) => false,
    }
}

fn pool_has_free(stored: &[Stored], pool: &Pool) -> bool {
    let entries = pool.entries.as_slice();
    entries
        .iter()
        .any(|entry| entry_has_free(stored, entry.as_str()))
}

fn has_free(stored: &[Stored]) -> bool {
    stored.iter().any(|held| match &held.object {
        Object::Pool(pool) => pool_has_free(stored, pool),
        _ => false,
    })
}

fn lacks_address(stored: &[Stored]) -> bool {
    stored.iter().any(|held| match &held.object {
        Object::Service(service) => service.balancer && !service.holding.is_assigned(),
        _ => false,
    })
}

/// Whether a service has no address while one of a pool is recorded for none. No service here
/// shares or asks for one.
pub fn waits_in_vain(store: &Store) -> bool {
    let stored = store.list().as_slice();
    lacks_address(stored) && has_free(stored)
}
