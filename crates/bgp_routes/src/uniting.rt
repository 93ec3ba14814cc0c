//! Contributions, united to routes.
ghost use Rattle.std.specs.Prelude.{◌≡◌, [], IfOk, OnOk};
ghost use Rattle.std.specs.Option.{option_copied};
ghost use Rattle.std.specs.Ordering.{nat_cmp};
ghost use Rattle.ip_ranges.specs.Values.{IsPrefix};
ghost use Rattle.large_numbers.specs.Large.{large_cmp};
ghost use Rattle.pool_config.specs.KeySets.{keys_with};
ghost use Rattle.bgp_updates.specs.Tables.{IsTable};
ghost use Rattle.bgp_routes.specs.Placed.{place_of, united_with};
ghost use Rattle.bgp_routes.specs.Uniting.{are_same, ascend_from, greater, united, united_terms};
ghost use Rattle.bgp_routes.specs.Uniting.{with_contribution};

use bgp_updates::Route;
use ip_ranges::{Address, Prefix};
use large_numbers::{LargeNumbers, larges_from};
use mlb_base::{NoMemory, TryCopy};
use pool_config::{CommunityNumbers, numbers_from};
use std::alloc::Global;
use std::collections::{BTreeMap, BTreeSet};
use std::marker::Model;

/// Routes of prefixes, one a prefix, which contracts see as their list by ascending prefix. A
/// contribution finds its place in the logarithm of their number.
#[derive(Drop)]
pub(crate) struct UnitedRoutes {
    alloc: Global,
    routes: BTreeMap<PrefixKey, Route>,
}

/// The place of a prefix: places ascend by the first address, IPv4 before IPv6, then by length.
#[derive(Clone, Copy, PartialEq, Eq, PartialOrd, Ord)]
pub(crate) struct PrefixKey {
    first: Address,
    length: u8,
}

impl Model for UnitedRoutes {
    ghost use Rattle.std.specs.Prelude.{List};
    ghost use Rattle.std.specs.Map.{values_of};
    ghost use Rattle.ip_ranges.specs.Values.{PrefixValue};
    ghost use Rattle.bgp_updates.specs.declared.route.Terms.{Terms};
    ghost use Rattle.bgp_updates.specs.Tables.{IsTable};
    ghost use Rattle.bgp_routes.specs.Placed.{ArePlaced};

    ghost Value = { List (PrefixValue × Terms) };

    ghost view = { λ r. values_of r.routes.entries };

    ghost invariant = { λ r. ArePlaced r.routes.entries × IsTable (values_of r.routes.entries) };
}

impl UnitedRoutes {
    /// No routes, which take no memory.
    pub(crate) fn new(alloc: Global) -> UnitedRoutes
        ensures { result ≡ [] }
    {
        UnitedRoutes {
            alloc,
            routes: BTreeMap::new(alloc),
        }
    }

    /// A contribution is united with the route of its prefix, or is a route of its own in its
    /// place.
    pub(crate) fn add(&mut self, route: Route) -> Result<(), NoMemory>
        requires { IsPrefix route.0 }
        ensures { OnOk result (self.new ≡ with_contribution self.old route) }
    {
        let place = place_of(&route);
        let joined = united_with(self.alloc, self.routes.get(&place), route)?;
        let _before = self.routes.insert(place, joined)?;
        Ok(())
    }

    /// The routes, by ascending prefix.
    pub(crate) fn into_vec(self) -> Result<Vec<Route>, NoMemory>
        ensures value { IfOk result (λ routes. routes.items ≡ self) }
        ensures table { IfOk result (λ routes. IsTable routes.items) }
    {
        Ok(self.routes.into_values().collect(self.alloc)?)
    }
}

impl PrefixKey {
    pub(crate) fn of(prefix: &Prefix) -> PrefixKey
        ensures { result ≡ place_of prefix.now }
    {
        PrefixKey {
            first: Address {
                family: prefix.family,
                number: prefix.number,
            },
            length: prefix.length,
        }
    }
}

fn place_of(route: &Route) -> PrefixKey
    ensures { result ≡ place_of route.now.0 }
{
    PrefixKey::of(&route.prefix)
}

/// The contribution, united with the route that stands at its place, if any.
fn united_with(alloc: Global, there: Option<&Route>, route: Route) -> Result<Route, NoMemory>
    ensures { IfOk result (λ made. made ≡ united_with (option_copied there.entry) route) }
{
    match there {
        None => Ok(route),
        Some(there) => united_route(alloc, there, &route),
    }
}

fn united_route(alloc: Global, there: &Route, route: &Route) -> Result<Route, NoMemory>
    ensures { IfOk result (λ made. made ≡ (there.now.0, united_terms there.now.1 route.now.1)) }
{
    Ok(Route {
        prefix: there.prefix,
        preference: greater(there.preference, route.preference),
        communities: united(alloc, &there.communities, &route.communities)?,
        large: united_large(alloc, &there.large, &route.large)?,
    })
}

fn greater(a: Option<u32>, b: Option<u32>) -> Option<u32>
    ensures { result ≡ greater a b }
{
    match (a, b) {
        (None, b) => b,
        (Some(a), None) => Some(a),
        (Some(a), Some(b)) => Some(a.max(b)),
    }
}

/// The communities of both. Lists that are equal, as those of one advertisement are, need no set.
#[tactic(auto, using(crate::proofs::Same::united_same))]
fn united(
    alloc: Global,
    a: &CommunityNumbers,
    b: &CommunityNumbers,
) -> Result<CommunityNumbers, NoMemory>
    ensures { IfOk result (λ numbers. numbers ≡ united nat_cmp a.now b.now) }
{
    if are_same(a.as_slice(), b.as_slice()) {
        return a.copy();
    }
    let mut set = BTreeSet::new(alloc);
    add_all(&mut set, a.as_slice())?;
    add_all(&mut set, b.as_slice())?;
    numbers_from(alloc, &set)
}

/// The large communities of both, which ascend in each.
fn united_large(alloc: Global, a: &LargeNumbers, b: &LargeNumbers) -> Result<LargeNumbers, NoMemory>
    ensures { IfOk result (λ numbers. numbers ≡ united large_cmp a.now b.now) }
{
    if a.as_slice() == b.as_slice() {
        return a.copy();
    }
    let mut set = BTreeSet::new(alloc);
    add_all(&mut set, a.as_slice())?;
    add_all(&mut set, b.as_slice())?;
    larges_from(alloc, &set)
}

/// Whether the lists are equal, and ascend.
fn are_same(a: &[u32], b: &[u32]) -> bool
    ensures { result ≡ are_same a.now b.now }
{
    a == b && ascend(a)
}

fn ascend(numbers: &[u32]) -> bool
    ensures { result ≡ ascend_from 0 numbers.now }
{
    let mut low = 0;
    for number in numbers {
        let number = u64::from(*number);
        if number < low {
            return false;
        }
        low = number + 1;
    }
    true
}

fn add_all<K: Ord + Copy>(set: &mut BTreeSet<K>, keys: &[K]) -> Result<(), NoMemory>
    ensures { OnOk result (set.new.keys ≡ keys_with K.cmp set.old.keys keys.now) }
{
    for key in keys {
        let _is_new = set.insert(*key)?;
    }
    Ok(())
}
