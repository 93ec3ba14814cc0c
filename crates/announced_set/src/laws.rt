//! What holds of every view.
ghost use Rattle.announced_set.specs.Announced.{AllAreAnnounced};

/// The listed addresses are exactly those that the node announces, IPv4 before IPv6, each family
/// ascending.
pub fn all_are_announced()
    ensures { AllAreAnnounced }
{}
