//! The files that options name for two lanes.
ghost use Rattle.std.specs.Prelude.{◌≡◌};
ghost use Rattle.std.specs.Option.{option_map};
ghost use Rattle.command_options.specs.Lanes.{lanes_by, no_lanes, with_first, with_second};
ghost use Rattle.command_options.specs.Lanes.{lane_seen, given_seen};

use crate::taking::once_text;

/// The files that a program's two lanes are read from. Their names differ.
#[derive(Clone, Copy)]
pub struct LaneFiles<'a> {
    pub first: &'a str,
    pub second: &'a str,
}

/// What options said so far of the files of two lanes.
#[derive(Clone, Copy)]
pub struct GivenLanes<'a> {
    pub first: Option<&'a str>,
    pub second: Option<&'a str>,
}

impl<'a> GivenLanes<'a> {
    /// No file was given.
    pub fn new() -> Self
        ensures nothing { given_seen result ≡ no_lanes }
    {
        GivenLanes {
            first: None,
            second: None,
        }
    }

    /// The first lane's file is given too, where it wasn't.
    pub fn with_first(self, name: &'a str) -> Option<Self>
        ensures given { option_map given_seen result ≡ with_first name.now (given_seen self.entry) }
    {
        Some(GivenLanes {
            first: Some(once_text(self.first, name)?),
            ..self
        })
    }

    /// The second lane's file is given too, where it wasn't.
    pub fn with_second(self, name: &'a str) -> Option<Self>
        ensures given { option_map given_seen result
            ≡ with_second name.now (given_seen self.entry) }
    {
        Some(GivenLanes {
            second: Some(once_text(self.second, name)?),
            ..self
        })
    }
}

/// The files of two lanes, where both are named and the names differ, or none is. `None` where one
/// alone is named, or both have one name.
pub fn lane_files<'a>(
    first: Option<&'a str>,
    second: Option<&'a str>,
) -> Option<Option<LaneFiles<'a>>>
    ensures files { option_map (λ lanes. option_map lane_seen lanes) result
        ≡ lanes_by (option_map (λ t. t.now) first.entry) (option_map (λ t. t.now) second.entry) }
{
    match (first, second) {
        (None, None) => Some(None),
        (Some(first), Some(second)) if first != second => Some(Some(LaneFiles { first, second })),
        _ => None,
    }
}
