//! Why the text of an address or of an entry is refused.

use thiserror::Error;

/// Why the text of an address or of an entry is refused.
#[derive(Clone, Copy, Debug, PartialEq, Eq, Error)]
pub enum RangeFault {
    /// The text is no address (RFC 4291, section 2.2), or one with a zone.
    #[error("not an address")]
    NotAddress,
    /// The length of a prefix is missing, isn't decimal without leading zeros, or exceeds the
    /// family's width.
    #[error("bad prefix length")]
    BadLength,
    /// The low side of a range is above the high side.
    #[error("range runs backwards")]
    Backwards,
    /// The sides of a range are of two families.
    #[error("range of two families")]
    MixedFamilies,
    /// The address, or one of the entry, is IPv4-mapped, of `::ffff:0:0/96` (RFC 4291, section
    /// 2.5.5.2).
    #[error("IPv4-mapped address")]
    Mapped,
}
