//! Routes and tables of them.
use ip_ranges::{Prefix, PrefixList};
use large_numbers::LargeNumbers;
use mlb_base::{ByteList, Sequence};
use pool_config::CommunityNumbers;
use std::alloc::Global;
use std::marker::Model;

/// What a route tells beside its prefix.
#[derive(Drop)]
pub struct Terms {
    /// LOCAL_PREF (RFC 4271, section 5.1.5), there for a peer of the same AS alone.
    pub preference: Option<u32>,
    /// COMMUNITIES (RFC 1997), ascending.
    pub communities: CommunityNumbers,
    /// LARGE_COMMUNITY (RFC 8092), ascending.
    pub large: LargeNumbers,
}

/// A route, which contracts see as its prefix and its terms.
pub struct Route {
    pub prefix: Prefix,
    /// LOCAL_PREF (RFC 4271, section 5.1.5), there for a peer of the same AS alone.
    pub preference: Option<u32>,
    /// COMMUNITIES (RFC 1997), ascending.
    pub communities: CommunityNumbers,
    /// LARGE_COMMUNITY (RFC 8092), ascending.
    pub large: LargeNumbers,
}

impl Drop for Route {
    fn drop(self) {
        let Route {
            prefix: _,
            preference: _,
            communities: _,
            large: _,
        } = self;
    }
}

impl Model for Route {
    ghost use Rattle.ip_ranges.specs.Values.{PrefixValue};
    ghost use Rattle.bgp_updates.specs.declared.route.Terms.{Terms};

    ghost Value = { PrefixValue × Terms };

    ghost view = { λ r. (r.prefix, record { preference = r.preference; communities = r.communities; large = r.large }) };
}

/// Routes of prefixes, IPv4 first, which ascend by number and then by length, one route a prefix.
pub struct RouteTable {
    routes: Sequence<Route>,
}

impl Drop for RouteTable {
    fn drop(self) {
        let RouteTable { routes: _ } = self;
    }
}

impl Model for RouteTable {
    ghost use Rattle.std.specs.Prelude.{List};
    ghost use Rattle.ip_ranges.specs.Values.{PrefixValue};
    ghost use Rattle.bgp_updates.specs.declared.route.Terms.{Terms};
    ghost use Rattle.bgp_updates.specs.Tables.{IsTable};

    ghost Value = { List (PrefixValue × Terms) };

    ghost view = { λ t. t.routes };

    ghost invariant = { λ t. IsTable t.routes };
}

impl RouteTable {
    ghost use Rattle.std.specs.Prelude.{◌≡◌, []};
    ghost use Rattle.bgp_updates.specs.Tables.{IsTable};

    /// The table without routes, which takes no memory.
    pub fn empty(alloc: Global) -> RouteTable
        ensures { result ≡ [] }
    {
        RouteTable {
            routes: Sequence::new(alloc),
        }
    }

    /// The table of these routes.
    pub fn from_vec(routes: Vec<Route>) -> RouteTable
        requires { IsTable routes.items }
        ensures { result ≡ routes.items }
    {
        RouteTable {
            routes: Sequence::from_vec(routes),
        }
    }

    /// The routes, by ascending prefix.
    pub fn as_slice(&self) -> &[Route]
        ensures routes { result.now ≡ self.now }
        ensures table { IsTable self.now }
    {
        self.routes.as_slice()
    }
}

/// Prefixes whose routes have the same terms.
#[derive(Drop)]
pub struct RouteGroup {
    pub terms: Terms,
    pub prefixes: PrefixList,
}

/// What a message tells of its sender.
#[derive(Clone, Copy)]
pub struct Peering {
    /// The own AS number where the peer has another, and `None` inside one AS.
    pub own: Option<u32>,
    /// The IPv4 address of the next hop.
    pub next_hop: u32,
    /// The IPv6 address of the next hop, of IPv6 routes.
    pub next_hop_v6: u128,
}

/// A list of messages.
pub type MessageList = Sequence<ByteList>;
