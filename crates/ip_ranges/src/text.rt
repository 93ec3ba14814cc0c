//! The texts of addresses (RFC 4291, section 2.2; RFC 5952, section 4).
ghost use Rattle.std.specs.Prelude.{◌≡◌, ◌<◌, ◌↔◌, ◌⊎◌, All, Some, Ok, IfOk, IfErr, IfSome};
ghost use Rattle.std.specs.Prelude.{string_bytes};
ghost use Rattle.ip_ranges.specs.Values.{AddressValue, IsOfFamily, IsMapped, meets_mapped, only};
ghost use Rattle.ip_ranges.specs.AddressText.{IsAddressText, address_of, spelled, unmapped};
ghost use Rattle.ip_ranges.specs.AddressText.{canonical_text};
ghost use Rattle.ip_ranges.specs.Canonical.{IsCanonical};

use crate::written::write_address;
use crate::{Address, Family, RangeFault, Span};
use mlb_base::NoMemory;
use std::alloc::Global;
use std::net::{Ipv4Addr, Ipv6Addr};

/// Reads an address: dotted decimal without leading zeros, or one of the forms of RFC 4291,
/// section 2.2.
///
/// `NotAddress` where the text is neither (also one with a zone), and `Mapped` where the address is
/// one of `::ffff:0:0/96`.
pub fn parse_address(text: &str) -> Result<Address, RangeFault>
    ensures value { result ≡ address_of text.now }
    ensures in_family { IfOk result IsOfFamily }

    // Read exactly where it is spelled and not IPv4-mapped, refused exactly in the other two cases.
    ensures ok { (a : AddressValue)
        → (result ≡ Ok a) ↔ (IsAddressText text.now a × (¬ IsMapped a)) }
    ensures not_address { (result ≡ Err RangeFault.NotAddress)
        ↔ ((a : AddressValue) → ¬ IsAddressText text.now a) }
    ensures mapped { (result ≡ Err RangeFault.Mapped)
        ↔ ((a : AddressValue) × IsAddressText text.now a × IsMapped a) }
    ensures faults { IfErr result (λ fault.
        (fault ≡ RangeFault.NotAddress) ⊎ (fault ≡ RangeFault.Mapped)) }
{
    read_address(text.as_bytes())
}

/// As `parse_address`, of the text's bytes.
pub(crate) fn read_address(text: &[u8]) -> Result<Address, RangeFault>
    ensures value { result ≡ address_of text.now }
    ensures in_family { IfOk result IsOfFamily }
{
    match spelled_address(text) {
        None => Err(RangeFault::NotAddress),
        Some(address) => unmapped(address),
    }
}

/// The address that the text spells, IPv4-mapped ones included.
fn spelled_address(text: &[u8]) -> Option<Address>
    ensures value { result ≡ spelled text.now }
    ensures in_family { IfSome result IsOfFamily }
{
    if let Ok(ip) = Ipv4Addr::parse_ascii(text) {
        return Some(Address {
            family: Family::V4,
            number: u128::from(ip.to_bits()),
        });
    }
    if let Ok(ip) = Ipv6Addr::parse_ascii(text) {
        return Some(Address {
            family: Family::V6,
            number: ip.to_bits(),
        });
    }
    None
}

/// The address, unless it is IPv4-mapped.
fn unmapped(address: Address) -> Result<Address, RangeFault>
    ensures value { result ≡ unmapped (Some address) }
    ensures same { IfOk result (λ a. a ≡ address) }
{
    if Span::only(&address).meets_mapped() {
        return Err(RangeFault::Mapped);
    }
    Ok(address)
}

/// The one text that the address is printed as: dotted decimal, or the text of RFC 5952, section 4,
/// with no dotted tail.
pub fn print_address(alloc: Global, address: &Address) -> Result<String, NoMemory>
    ensures text { IfOk result (λ text. string_bytes text ≡ canonical_text address.now) }
    ensures canonical { IfOk result (λ text. IsCanonical (string_bytes text) address.now) }

    // Reading the text gives the address back.
    ensures reads_back { (¬ IsMapped address.now)
        → IfOk result (λ text. address_of (string_bytes text) ≡ Ok address.now) }
    ensures in_family { IsOfFamily address.now }
{
    let mut buf = [0; 39];
    let len = write_address(address, &mut buf);
    from_ascii(alloc, &buf[..len])
}

fn from_ascii(alloc: Global, bytes: &[u8]) -> Result<String, NoMemory>
    requires { All (λ byte. byte < 128) bytes.now }
    ensures { IfOk result (λ text. string_bytes text ≡ bytes.now) }
{
    let mut text = String::with_capacity(alloc, bytes.len())?;
    for byte in bytes {
        text.push(char::from(*byte))?;
    }
    Ok(text)
}
