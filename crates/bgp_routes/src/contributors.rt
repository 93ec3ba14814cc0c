//! Which addresses contribute to which prefixes, by which advertisement.
ghost use Rattle.std.specs.Prelude.{◌≡◌, OnOk};
ghost use Rattle.std.specs.Map.{keys_of};
ghost use Rattle.std.specs.Option.{option_copied};
ghost use Rattle.bgp_routes.specs.Contributors.{IsPutAt, first_of, has, one_of};

use crate::uniting::PrefixKey;
use grouped_keys::GroupedKeys;
use ip_ranges::Address;
use mlb_base::NoMemory;
use std::alloc::Global;
use std::collections::BTreeSet;
use std::collections::btree_map::Keys;
use std::marker::Model;

/// A prefix, by its place, under the advertisement at a place of the configuration's list.
#[derive(Clone, Copy, PartialEq, Eq, PartialOrd, Ord, Drop)]
pub(crate) struct Aggregate {
    pub(crate) place: PrefixKey,
    pub(crate) advertisement: usize,
}

/// For each aggregate the addresses that contribute to it. A call takes the logarithm of their
/// number.
#[derive(Drop)]
pub(crate) struct Contributors {
    addresses: GroupedKeys<Aggregate, Address>,
}

impl Model for Contributors {
    ghost use Rattle.std.specs.Prelude.{List};
    ghost use Rattle.std.specs.BTreeSet.{BTreeSet};
    ghost use Rattle.ip_ranges.specs.Values.{AddressValue};
    ghost use Rattle.bgp_routes.specs.declared.contributors.Aggregate.{Aggregate as AggregateValue};

    ghost Value = { List (AggregateValue × BTreeSet AddressValue) };

    ghost view = { λ c. c.addresses };
}

impl Contributors {
    ghost use Rattle.std.specs.Prelude.{false};

    /// No address contributes to anything. This takes no memory.
    pub(crate) fn new(alloc: Global) -> Contributors
        ensures { has result ≡ (λ aggregate address. false) }
    {
        Contributors {
            addresses: GroupedKeys::new(alloc),
        }
    }

    /// The address contributes to the aggregate from now on, or doesn't.
    pub(crate) fn put(
        &mut self,
        aggregate: Aggregate,
        address: &Address,
        contributes: bool,
    ) -> Result<(), NoMemory>
        ensures { OnOk result (IsPutAt aggregate address.now contributes self.old self.new) }
    {
        if contributes {
            self.addresses.insert(aggregate, *address)
        } else {
            self.addresses.remove(&aggregate, address);
            Ok(())
        }
    }

    /// One of the addresses that contribute to the aggregate.
    pub(crate) fn one_of(&self, aggregate: &Aggregate) -> Option<&Address>
        ensures { option_copied result ≡ one_of self.now aggregate.now }
    {
        first_of(self.addresses.keys(aggregate))
    }

    /// The aggregates to which addresses contribute, ascending.
    pub(crate) fn aggregates(&self) -> Keys<'_, Aggregate, BTreeSet<Address>>
        ensures { result ≡ keys_of self.now }
    {
        self.addresses.groups()
    }
}

fn first_of(addresses: Option<&BTreeSet<Address>>) -> Option<&Address>
    ensures { option_copied result ≡ first_of (option_copied addresses.entry) }
{
    addresses?.first()
}
