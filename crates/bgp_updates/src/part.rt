//! How messages tell of prefixes.
use mlb_base::ByteList;

/// How a message tells of its prefixes, whatever they are.
#[derive(Drop)]
pub enum Part {
    /// IPv4 prefixes are withdrawn.
    Withdrawn,
    /// IPv6 prefixes are withdrawn, in MP_UNREACH_NLRI (RFC 4760, section 4).
    Unreached,
    /// IPv4 prefixes are announced, with these path attributes.
    Announced {
        attributes: ByteList,
    },
    /// IPv6 prefixes are announced by a next hop, in MP_REACH_NLRI (RFC 4760, section 3), which
    /// stands after the attributes in front.
    Reached {
        front: ByteList,
        hop: u128,
        back: ByteList,
    },
}
