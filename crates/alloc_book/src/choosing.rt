//! What is chosen for a service: the first case of the table that holds.
ghost use Rattle.std.specs.Prelude.{◌≡◌, IfOk, OnOk, map, filter_map, slice_get};
ghost use Rattle.std.specs.List.{All, Contains};
ghost use Rattle.std.specs.Option.{option_copied};
ghost use Rattle.sharing_terms.specs.Marked.{AreTerms};
ghost use Rattle.sharing_terms.specs.Terms.{terms_of};
ghost use Rattle.full_entries.specs.Entries.{AreThose};
ghost use Rattle.pool_choice.specs.Eligible.{eligible};
ghost use Rattle.alloc_book.specs.Asking.{offer_of};
ghost use Rattle.alloc_book.specs.Choose.{new_or, is_unusable, is_refused, asked_from, kept_from};
ghost use Rattle.alloc_book.specs.Choose.{from_asked};
ghost use Rattle.alloc_book.specs.Choosing.{IsEntered, claims_in, offer_for, asker_in};
ghost use Rattle.alloc_book.specs.Choose.{from_eligible, unasked, anew, granted, pooled, fitting};
ghost use Rattle.alloc_book.specs.Choose.{choose_for, choose};

use crate::booking::Book;
use crate::choice::Choice;
use crate::marked::MarkedTerms;
use crate::requests::{
    all_usable, asked_in, fits_option, home_of, is_asked, is_given, is_unreadable, kept_in, named,
};
use crate::search::{first_option, record_in};
use ip_ranges::AddressList;
use kube_labels::{Labels, Text};
use kube_model::{Reason, Record, Service};
use mlb_base::{NoMemory, TryCopy};
use pool_choice::{eligible, serves};
use pool_config::{CompiledPool, Config};
use std::alloc::Global;

fn new_or(reason: Reason, found: Option<Record>) -> Choice
    ensures { result ≡ new_or reason found }
{
    match found {
        Some(holding) => Choice::New { holding },
        None => Choice::Pending { reason },
    }
}

/// A service for which addresses are chosen, by whose claims, from which pools, under which terms,
/// and by which labels of its namespace.
#[derive(Drop)]
struct Choosing<'a> {
    alloc: Global,
    book: &'a Book,
    config: &'a Config,
    service: &'a Service,
    terms: &'a MarkedTerms,
    namespace: &'a Labels,
}

impl<'a> Choosing<'a> {
    fn pools(&self) -> &'a [CompiledPool]
        ensures { result.now ≡ self.now.config.now.pools }
    {
        let config = self.config;
        config.pools.as_slice()
    }

    /// A new record from the pool that is asked for.
    fn from_asked(&self) -> Result<Choice, NoMemory>
        requires { IsEntered self.now }
        ensures { IfOk result (λ c. c ≡ from_asked (claims_in self.now) (offer_for self.now)
            (asker_in self.now)) }
    {
        let reason = Reason::PoolExhausted;
        match named(self.pools(), &self.service.pool_asked) {
            None => Ok(Choice::Pending { reason }),
            Some(pool) => {
                let found = first_option(self.alloc, self.book, &[pool], self.service, self.terms)?;
                Ok(new_or(reason, found))
            }
        }
    }

    /// A new record from the first eligible pool that can give one.
    fn from_eligible(&self) -> Result<Choice, NoMemory>
        requires { IsEntered self.now }
        ensures { IfOk result (λ c. c ≡ from_eligible (claims_in self.now) (offer_for self.now)
            (asker_in self.now)) }
    {
        let pools = eligible_pools(self.alloc, self.config, self.service, self.namespace)?;
        if pools.is_empty() {
            return Ok(Choice::Pending {
                reason: Reason::NoPool,
            });
        }
        let found = first_option(
            self.alloc,
            self.book,
            pools.as_slice(),
            self.service,
            self.terms,
        );
        drop(pools);
        Ok(new_or(Reason::Exhausted, found?))
    }

    /// Cases 11 to 13: no addresses are asked for.
    fn unasked(&self) -> Result<Choice, NoMemory>
        requires { IsEntered self.now }
        ensures { IfOk result (λ c. c ≡ unasked (claims_in self.now) (offer_for self.now)
            (asker_in self.now)) }
    {
        if is_given(&self.service.pool_asked) {
            self.from_asked()
        } else {
            self.from_eligible()
        }
    }

    /// Whether there is such a pool, from which not all the addresses asked for may be used.
    fn is_unusable(&self, home: Option<&CompiledPool>) -> bool
        ensures { result ≡ is_unusable (claims_in self.now) (asker_in self.now)
            (option_copied home.entry) }
    {
        let Some(pool) = home else {
            return false;
        };
        let asked = asked_in(&self.service.wanted);
        !all_usable(self.book, self.service, self.terms, pool, asked)
    }

    /// The addresses asked for, as addresses of the pool.
    fn asked_from(&self, home: Option<&CompiledPool>) -> Result<Choice, NoMemory>
        ensures { IfOk result (λ c. c ≡ asked_from (asker_in self.now) (option_copied home.entry)) }
    {
        let Some(pool) = home else {
            return Ok(Choice::Clear);
        };
        let addresses = AddressList::from_slice(self.alloc, asked_in(&self.service.wanted))?;
        Ok(Choice::New {
            holding: record_in(pool, self.terms, addresses)?,
        })
    }

    /// The recorded addresses, as addresses of the pool.
    fn kept_from(&self, kept: Option<&CompiledPool>) -> Result<Choice, NoMemory>
        ensures { IfOk result (λ c. c ≡ kept_from (asker_in self.now) (option_copied kept.entry)) }
    {
        let Some(pool) = kept else {
            return Ok(Choice::Clear);
        };
        let addresses = self.service.holding.addresses.copy()?;
        Ok(Choice::Keep {
            holding: record_in(pool, self.terms, addresses)?,
        })
    }

    /// Cases 8 to 13: the recorded addresses may not stay.
    fn anew(&self) -> Result<Choice, NoMemory>
        requires { IsEntered self.now }
        ensures { IfOk result (λ c. c ≡ anew (claims_in self.now) (offer_for self.now)
            (asker_in self.now)) }
    {
        if !is_asked(&self.service.wanted) {
            return self.unasked();
        }
        let home = home_of(self.config, self.service, self.terms, self.namespace);
        if home.is_none() {
            return Ok(Choice::Pending {
                reason: Reason::AddressOutside,
            });
        }
        if self.is_unusable(home) {
            return Ok(Choice::Pending {
                reason: Reason::AddressUnusable,
            });
        }
        self.asked_from(home)
    }

    /// Cases 7 to 13: what is asked for can be read, and the pool asked for may be used.
    fn granted(&self) -> Result<Choice, NoMemory>
        requires { IsEntered self.now }
        ensures { IfOk result (λ c. c ≡ granted (claims_in self.now) (offer_for self.now)
            (asker_in self.now)) }
    {
        let kept = kept_in(
            self.book,
            self.config,
            self.service,
            self.terms,
            self.namespace,
        );
        if kept.is_some() {
            return self.kept_from(kept);
        }
        self.anew()
    }

    /// Whether there is such a pool, and it doesn't serve the service.
    fn is_refused(&self, asked: Option<&CompiledPool>) -> bool
        ensures { result ≡ is_refused (offer_for self.now) (option_copied asked.entry) }
    {
        match asked {
            None => false,
            Some(pool) => !serves(pool, self.service, self.namespace),
        }
    }

    /// Cases 5 to 13: what is asked for is one address of each family of some option.
    fn pooled(&self) -> Result<Choice, NoMemory>
        requires { IsEntered self.now }
        ensures { IfOk result (λ c. c ≡ pooled (claims_in self.now) (offer_for self.now)
            (asker_in self.now)) }
    {
        let asked = named(self.pools(), &self.service.pool_asked);
        if is_given(&self.service.pool_asked) && asked.is_none() {
            return Ok(Choice::Pending {
                reason: Reason::PoolUnknown,
            });
        }
        if is_given(&self.service.pool_asked) && self.is_refused(asked) {
            return Ok(Choice::Pending {
                reason: Reason::PoolRefused,
            });
        }
        self.granted()
    }

    /// Cases 4 to 13: what is asked for can be read.
    fn fitting(&self) -> Result<Choice, NoMemory>
        requires { IsEntered self.now }
        ensures { IfOk result (λ c. c ≡ fitting (claims_in self.now) (offer_for self.now)
            (asker_in self.now)) }
    {
        let wanted = &self.service.wanted;
        if is_asked(wanted) && !fits_option(self.service, asked_in(wanted)) {
            return Ok(Choice::Pending {
                reason: Reason::RequestFamilies,
            });
        }
        self.pooled()
    }

    /// The whole table, where services of this class are handled.
    fn choose(&self, class: Option<&Text>) -> Result<Choice, NoMemory>
        requires { IsEntered self.now }
        ensures { IfOk result
            (λ c. c ≡ choose_for (claims_in self.now) (offer_for self.now)
            (option_copied class.entry) self.now.service.now (asker_in self.now)) }
    {
        if self.service.balancer && !self.service.is_handled(class) {
            return Ok(Choice::Foreign);
        }
        if !self.service.balancer {
            return Ok(Choice::Clear);
        }
        if is_unreadable(&self.service.wanted) {
            return Ok(Choice::Pending {
                reason: Reason::RequestUnreadable,
            });
        }
        self.fitting()
    }
}

fn pool_at(pools: &[CompiledPool], place: usize) -> Option<&CompiledPool>
    ensures { option_copied result ≡ slice_get pools.now place }
{
    pools.get(place)
}

/// The pools at these places; a place past the end is that of none.
fn pools_at<'a>(
    alloc: Global,
    pools: &'a [CompiledPool],
    places: &[usize],
) -> Result<Vec<&'a CompiledPool>, NoMemory>
    ensures places { IfOk result (λ found. map (λ p. p.now) found.items
        ≡ filter_map (slice_get pools.now) places.now) }
    ensures among { IfOk result (λ found. All (λ p. Contains pools.now p.now) found.items) }
{
    let mut found = Vec::new(alloc);
    for place in places {
        let Some(pool) = pool_at(pools, *place) else {
            continue;
        };
        found.push(pool)?;
    }
    Ok(found)
}

/// The pools of the configuration that serve the service unasked, in their order.
fn eligible_pools<'a>(
    alloc: Global,
    config: &'a Config,
    service: &Service,
    namespace: &Labels,
) -> Result<Vec<&'a CompiledPool>, NoMemory>
    ensures eligible { IfOk result
        (λ found. map (λ p. p.now) found.items
        ≡ eligible service.now namespace.now config.now.pools) }
    ensures among { IfOk result (λ found. All (λ p. Contains config.now.pools p.now) found.items) }
{
    let places = eligible(alloc, config, service, namespace)?;
    pools_at(alloc, config.pools.as_slice(), places.as_slice())
}

/// What is chosen for a service whose namespace has these labels.
pub(crate) fn choose(
    alloc: Global,
    book: &Book,
    config: &Config,
    class: Option<&Text>,
    service: &Service,
    namespace: &Labels,
) -> Result<Choice, NoMemory>
    requires { AreThose config.now.pools book.now.entries }
    ensures value { IfOk result (λ c. c
        ≡ choose book.now.claims (offer_of config.now.pools service.now namespace.now)
        (option_copied class.entry) service.now) }
    ensures terms { OnOk result (AreTerms (terms_of service.now)) }
{
    let terms = MarkedTerms::of(alloc, service)?;
    let choosing = Choosing {
        alloc,
        book,
        config,
        service,
        terms: &terms,
        namespace,
    };
    let choice = choosing.choose(class);
    drop(terms);
    choice
}
