//! What holds of the routes of every node for every peer.
ghost use Rattle.bgp_routes.specs.Determined.{TablesAreDetermined};
ghost use Rattle.bgp_routes.specs.Differ.{ChangedViewsDiffer};
ghost use Rattle.bgp_routes.specs.Families.{Ipv4RoutesAreTheSame, RoutesAreOfIpv4};
ghost use Rattle.bgp_routes.specs.Laws.{ContributionsAreListed, RoutesAreStated};
ghost use Rattle.bgp_routes.specs.Laws.{RoutesUniteContributions};
ghost use Rattle.bgp_routes.specs.Parts.{OthersAgree, SameViewsKeepTables};
ghost use Rattle.bgp_routes.specs.Stays.{ContributionsStay};

/// The table of a node for a peer says of each prefix what all contributions of the prefix do,
/// united.
pub fn routes_are_stated()
    ensures { RoutesAreStated }
{}

/// What contributes is an address of a family that counts, recorded on some service that can be
/// announced from the node, and a BGPAdvertisement that chooses its pool, selects the node and
/// names the peer or none.
pub fn contributions_are_listed()
    ensures { ContributionsAreListed }
{}

/// Each contribution's prefix has a route, and no other prefix has one. Its communities are exactly
/// those of all contributions of the prefix, and so are its large ones, and its preference is the
/// greatest of theirs.
pub fn routes_unite_contributions()
    ensures { RoutesUniteContributions }
{}

/// Where IPv4 alone counts, each route is of IPv4.
pub fn routes_are_of_ipv4()
    ensures { RoutesAreOfIpv4 }
{}

/// They are the routes of both families that are of IPv4, by a view whose configuration in force
/// has few communities.
pub fn ipv4_routes_are_the_same()
    ensures { Ipv4RoutesAreTheSame }
{}

/// The routes of a node for a peer are one table at most, where the communities of each ascend, and
/// the large ones.
pub fn tables_are_determined()
    ensures { TablesAreDetermined }
{}

/// Where two views have the same configuration in force and the same labels of a node, and announce
/// the same addresses from it, its routes for all peers are the same.
pub fn same_views_keep_tables()
    ensures { SameViewsKeepTables }
{}

/// Where an event leaves all that decides who may announce an address but at some nodes, the same
/// is contributed for it, of every other node and to every peer.
pub fn contributions_stay()
    ensures { ContributionsStay }
{}

/// Where an event's change leaves all at the addresses that it doesn't list but at its nodes, the
/// views before and after differ, of every other node, at those that it lists at most.
pub fn changed_views_differ()
    ensures { ChangedViewsDiffer }
{}

/// Where two views differ at some addresses at most, a node's tables for every peer agree at each
/// prefix that isn't one of these addresses' under some advertisement.
pub fn others_agree()
    ensures { OthersAgree }
{}
