//! What holds of every service that a line shows.
ghost use Rattle.shown_service_laws.specs.Shown.{ServicesHaveTerms, EventsShowTerms};
ghost use Rattle.shown_service_laws.specs.Shown.{EventsShowFamilies};

/// A service that a line shows has terms that there can be.
pub fn services_have_terms()
    ensures { ServicesHaveTerms }
{}

/// Whatever event a line is read as, a service that it shows has terms that there can be, and wants
/// an address of one family, or of two.
pub fn events_show_terms()
    ensures terms { EventsShowTerms }
    ensures families { EventsShowFamilies }
{}
