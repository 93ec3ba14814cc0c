//! Addresses of both families, their texts, and ranges of them.
//!
//! Texts are those of RFC 4291, section 2.2, and are printed as RFC 5952, section 4, has it. An
//! IPv4-mapped address, of `::ffff:0:0/96`, is never read. A range is covered by the fewest
//! prefixes that have exactly its addresses.
//!
//! Address texts are read and printed by std's `Ipv4Addr` and `Ipv6Addr`; what std prints with a
//! dotted tail is printed in groups.
//!
//! One printer writes addresses into a buffer, since std's `Display` may fail without a reason.
#![tactic(auto)]

mod address;
mod covers;
mod entry;
mod family;
mod fault;
mod prefix;
mod span;
mod text;
mod written;

pub use address::{Address, AddressList, is_buggy};
pub use covers::{cover, least_length};
pub use entry::{parse_entry, parse_padded_address};
pub use family::Family;
pub use fault::RangeFault;
pub use prefix::{Prefix, PrefixList, mask};
pub use span::{Span, SpanList};
pub use text::{parse_address, print_address};
pub use written::write_address;
