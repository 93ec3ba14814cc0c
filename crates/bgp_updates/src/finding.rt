//! Look-ups in tables.
ghost use Rattle.std.specs.Prelude.{◌≡◌, ◌≤◌, true, false, length};
ghost use Rattle.std.specs.List.Sorted.{IsPartitionPoint};
ghost use Rattle.std.specs.Option.{option_map};
ghost use Rattle.bgp_updates.specs.Received.{terms_at};
ghost use Rattle.bgp_updates.specs.Tables.{before, of_family, IsTable};
ghost use Rattle.ip_ranges.specs.declared.family.Family.TheVariants.{V4, V6};
ghost use Rattle.ip_ranges.specs.Values.{same_family};

use crate::prefix::{is_before, is_v4, same_prefix};
use crate::route::Route;
use ip_ranges::Prefix;

/// The route of the prefix in a table, found by binary search, since tables ascend.
pub(crate) fn route_at<'a>(table: &'a [Route], prefix: &Prefix) -> Option<&'a Route>
    requires { IsTable table.now }
    ensures { option_map (λ route. route.now.1) result ≡ terms_at table.now prefix.now }
{
    let there = table.get(count_before(table, prefix))?;
    if same_prefix(prefix, &there.prefix) {
        Some(there)
    } else {
        None
    }
}

/// How many routes of a table have prefixes before this one.
fn count_before(table: &[Route], prefix: &Prefix) -> usize
    requires { IsTable table.now }
    ensures { IsPartitionPoint (λ route. before route.0 prefix.now ≡ true)
        (λ route. before route.0 prefix.now ≡ false) table.now result }
{
    table.partition_point(|route| is_before(&route.prefix, prefix))
}

/// The routes of IPv4, and those of IPv6, which stand after them.
pub(crate) fn by_family(table: &[Route]) -> (&[Route], &[Route])
    requires { IsTable table.now }
    ensures v4 { result.0.now ≡ of_family V4 table.now }
    ensures v6 { result.1.now ≡ of_family V6 table.now }
{
    table.split_at(count_v4(table))
}

/// How many routes of a table are of IPv4.
fn count_v4(table: &[Route]) -> usize
    requires { IsTable table.now }
    ensures point { IsPartitionPoint (λ route. same_family route.0.family V4 ≡ true)
        (λ route. same_family route.0.family V4 ≡ false) table.now result }
    ensures within { result ≤ length table.now }
{
    table.partition_point(|route| is_v4(&route.prefix))
}
