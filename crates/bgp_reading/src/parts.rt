//! What an UPDATE message says, and why octets are none.
use ip_ranges::PrefixList;
use large_numbers::LargeNumbers;
use mlb_base::NoMemory;
use pool_config::CommunityNumbers;
use thiserror::Error;

/// What an UPDATE message says: withdrawn routes alone, or announced ones alone, of IPv4 or of
/// IPv6.
#[derive(Drop)]
pub struct UpdateParts {
    /// The prefixes without a route from now on, ascending by number and then by length.
    pub withdrawn: PrefixList,
    /// COMMUNITIES (RFC 1997) of the announced routes, ascending.
    pub communities: CommunityNumbers,
    /// LARGE_COMMUNITY (RFC 8092) of the announced routes, ascending.
    pub large: LargeNumbers,
    /// LOCAL_PREF (RFC 4271, section 5.1.5) of the announced routes, from inside the AS alone.
    pub preference: Option<u32>,
    /// The prefixes of the announced routes, ascending by number and then by length.
    pub announced: PrefixList,
}

/// Why no message was read.
#[derive(Clone, Copy, Debug, Error)]
pub enum UpdateFault {
    #[error("not an UPDATE message")]
    NotUpdate,
    #[error("out of memory")]
    NoMemory,
}

impl From<NoMemory> for UpdateFault {
    ghost use Rattle.std.specs.Prelude.{◌≡◌};
    ghost use Rattle.bgp_reading.specs.declared.parts.UpdateFault.TheVariants.{NoMemory as Memory};

    ghost from_gives = { λ _ e. e ≡ Memory };

    fn from(_refused: NoMemory) -> Self {
        UpdateFault::NoMemory
    }
}
