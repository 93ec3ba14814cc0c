//! The entries of pools: a range `low-high`, or a prefix `address/length`.
ghost use Rattle.std.specs.Prelude.{◌≡◌, ◌↔◌, Result, ◌<◌, ◌≤◌, ◌^◌, ◌-◌, ◌+◌, false, IfOk, IfSome};
ghost use Rattle.std.specs.Net.Reader.{read_octet, whole_value};
ghost use Rattle.ip_ranges.specs.Values.{AddressValue, SpanValue, IsOfFamily, IsRange};
ghost use Rattle.ip_ranges.specs.Values.{meets_mapped, width_of};
ghost use Rattle.ip_ranges.specs.declared.fault.RangeFault.{RangeFault};
ghost use Rattle.ip_ranges.specs.AddressText.{address_of};
ghost use Rattle.ip_ranges.specs.Entry.{IsEntry};
ghost use Rattle.ip_ranges.specs.EntryText.{entry_of, written_span, range_of, prefix_of};
ghost use Rattle.ip_ranges.specs.EntryText.{span_between, trimmed};
ghost use Rattle.ip_ranges.specs.EntryText.{trim_start, trim_end, is_blank, length_within};
ghost use Rattle.ip_ranges.specs.EntryText.{is_padded};

use crate::prefix::mask;
use crate::text::read_address;
use crate::{Address, RangeFault, Span};

/// Reads a range, `low-high`, or a prefix, `address/length`. The first fault in this order is the
/// answer.
///
/// A text with a dash is a range, split at the first one, and spaces and tabs round both sides are
/// dropped: a fault of the low side, then of the high one, then `MixedFamilies`, then `Backwards`.
/// Any other text is a prefix, split at the first slash: a fault of the address, then `BadLength`;
/// the bits of the address past the length are dropped.
/// Last, a span that has an address of `::ffff:0:0/96` is `Mapped`.
pub fn parse_entry(text: &str) -> Result<Span, RangeFault>
    ensures value { result ≡ entry_of text.now }

    // Each span and each fault is the answer exactly where the text is such an entry.
    ensures exact { (outcome : Result SpanValue RangeFault)
        → (result ≡ outcome) ↔ IsEntry text.now outcome }
    ensures in_family { IfOk result IsRange }
    ensures unmapped { IfOk result (λ span. meets_mapped span ≡ false) }
{
    let span = read_span(text)?;
    if span.meets_mapped() {
        return Err(RangeFault::Mapped);
    }
    Ok(span)
}

fn read_span(text: &str) -> Result<Span, RangeFault>
    ensures value { result ≡ written_span text.now }
    ensures in_family { IfOk result IsRange }
{
    match text.split_once('-') {
        Some((low, high)) => read_range(low.as_bytes(), high.as_bytes()),
        None => {
            let (address, length) = text.split_once('/').unwrap_or((text, ""));
            read_prefix(address.as_bytes(), length)
        }
    }
}

fn read_range(low: &[u8], high: &[u8]) -> Result<Span, RangeFault>
    ensures value { result ≡ range_of low.now high.now }
    ensures in_family { IfOk result IsRange }
{
    let low = read_address(trim_blanks(low))?;
    let high = read_address(trim_blanks(high))?;
    span_between(&low, &high)
}

fn span_between(low: &Address, high: &Address) -> Result<Span, RangeFault>
    ensures value { result ≡ span_between low.now high.now }
    ensures in_family { IfOk result IsRange }
{
    if low.family != high.family {
        return Err(RangeFault::MixedFamilies);
    }
    if high.number < low.number {
        return Err(RangeFault::Backwards);
    }
    Ok(Span {
        family: low.family,
        low: low.number,
        high: high.number,
    })
}

/// Reads an address with spaces and tabs round it, which are dropped; a fault is as in
/// `parse_address`.
pub fn parse_padded_address(text: &str) -> Result<Address, RangeFault>
    ensures value { result ≡ address_of (trimmed text.now) }
    ensures in_family { IfOk result IsOfFamily }
{
    read_address(trim_blanks(text.as_bytes()))
}

/// The text without the spaces and tabs that it begins and ends with.
fn trim_blanks(text: &[u8]) -> &[u8]
    ensures { result.now ≡ trimmed text.now }
{
    trim_end(trim_start(text))
}

fn trim_start(text: &[u8]) -> &[u8]
    ensures { result.now ≡ trim_start text.now }
{
    let mut start = 0;
    while start < text.len() && is_blank(text[start]) {
        start += 1;
    }
    &text[start..]
}

fn trim_end(text: &[u8]) -> &[u8]
    ensures { result.now ≡ trim_end text.now }
{
    let mut end = text.len();
    while end > 0 && is_blank(text[end - 1]) {
        end -= 1;
    }
    &text[..end]
}

fn is_blank(byte: u8) -> bool
    ensures { result ≡ is_blank byte }
{
    byte == b' ' || byte == b'\t'
}

fn read_prefix(address: &[u8], length: &str) -> Result<Span, RangeFault>
    ensures value { result ≡ prefix_of address.now length.now }
    ensures in_family { IfOk result IsRange }
{
    let address = read_address(address)?;
    let length = read_length(length, address.family.width())?;
    Ok(mask(&address, length).span())
}

/// Reads a decimal number without leading zeros, of at most the width.
fn read_length(text: &str, width: u8) -> Result<u8, RangeFault>
    ensures value { result ≡ length_within width (whole_value (read_octet text.now)) }
    ensures within { IfOk result (λ length. length ≤ width) }
{
    match read_decimal(text) {
        Some(length) if length <= width => Ok(length),
        _ => Err(RangeFault::BadLength),
    }
}

/// Reads a decimal number without sign or leading zeros, of at most 255.
fn read_decimal(text: &str) -> Option<u8>
    ensures { result ≡ whole_value (read_octet text.now) }
{
    if is_padded(text.as_bytes()) {
        return None;
    }
    text.parse::<u8>().ok()
}

/// Whether the text begins with a plus, or with a zero before others.
fn is_padded(text: &[u8]) -> bool
    ensures { result ≡ is_padded text.now }
{
    match text {
        [] => false,
        [first] => *first == b'+',
        [first, ..] => *first == b'+' || *first == b'0',
    }
}
