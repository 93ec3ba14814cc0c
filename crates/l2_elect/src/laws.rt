//! What holds of every view and address.
ghost use Rattle.l2_elect.specs.Election.{OneAnnounces, OnlyAnEligibleNodeAnnounces};
ghost use Rattle.l2_elect.specs.Eligible.{EligibleNodesStay};
ghost use Rattle.l2_elect.specs.Moves.{ElectionMovesLeast};

/// Where a node is eligible, exactly one announces, by every speaker whose view is this one.
pub fn one_announces()
    ensures { OneAnnounces }
{}

/// Where no node is eligible, none announces.
pub fn only_an_eligible_node_announces()
    ensures { OnlyAnEligibleNodeAnnounces }
{}

/// Where an event leaves all that decides who may announce an address but at some nodes, the same
/// others are eligible for it.
pub fn eligible_nodes_stay()
    ensures { EligibleNodesStay }
{}

/// Where a member leaves, each address that another announced stays where it was, and where one
/// joins, each that it doesn't announce itself.
pub fn election_moves_least()
    ensures { ElectionMovesLeast }
{}
