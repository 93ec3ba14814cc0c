//! The two lanes.
ghost use Rattle.std.specs.Prelude.{◌≡◌};
ghost use Rattle.lane_mail.specs.Lanes.{other};

/// One of the two streams of events that a program watches.
#[derive(Clone, Copy, PartialEq, Eq)]
pub enum Lane {
    First,
    Second,
}

impl Lane {
    /// The one that it isn't.
    pub(crate) fn other(self) -> Lane
        ensures { result ≡ other self }
    {
        match self {
            Lane::First => Lane::Second,
            Lane::Second => Lane::First,
        }
    }
}
