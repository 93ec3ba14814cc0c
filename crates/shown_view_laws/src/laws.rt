//! What holds of every view that lines lead to.
ghost use Rattle.shown_view_laws.specs.Numbered.{ShownViewsAreNumbered};
ghost use Rattle.shown_view_laws.specs.Tellable.{RoutesCanBeTold};

/// The numbers that routes are made of are such as their fields hold in the view after any lines,
/// and the names of its peers are distinct.
pub fn shown_views_are_numbered()
    ensures { ShownViewsAreNumbered }
{}

/// By such a view, whose configuration keeps the limits on communities, the routes of a peer, of
/// IPv4 alone or of both families, can be told in messages that are read as what they say.
pub fn routes_can_be_told()
    ensures { RoutesCanBeTold }
{}
