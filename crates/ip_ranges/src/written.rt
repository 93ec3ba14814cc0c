//! The text of an address in a buffer of the caller's.
ghost use Rattle.std.specs.Prelude.{◌≡◌, ◌+◌, ◌*◌, ◌-◌, ◌<◌, ◌≤◌, ◌++◌, ◌∷◌, [], length, take};
ghost use Rattle.std.specs.Prelude.{drop, decimal, All, Ok};
ghost use Rattle.std.specs.Char.{digit_char};
ghost use Rattle.std.specs.Net.Text.{hex, groups_text, longest_zero_run};
ghost use Rattle.ip_ranges.specs.AddressText.{address_of, canonical_text, text_in};
ghost use Rattle.ip_ranges.specs.Canonical.{IsCanonical};
ghost use Rattle.ip_ranges.specs.Values.{IsMapped, IsOfFamily};

use crate::{Address, Family};
use std::net::{Ipv4Addr, Ipv6Addr};

/// Writes the text that `print_address` gives to the front of the buffer, and answers its length.
/// It takes no memory. What the buffer has after the text is not stated.
pub fn write_address(address: &Address, buf: &mut [u8; 39]) -> usize
    ensures text { take result buf.new ≡ canonical_text address.now }
    ensures canonical { IsCanonical (take result buf.new) address.now }

    // Reading the text gives the address back.
    ensures reads_back { (¬ IsMapped address.now)
        → address_of (take result buf.new) ≡ Ok address.now }
    ensures ascii { All (λ byte. byte < 128) (take result buf.new) }
    ensures within { result ≤ 39 }
    ensures in_family { IsOfFamily address.now }
{
    match address.family {
        Family::V4 => write_ipv4(address.number as u32, buf),
        Family::V6 => write_ipv6(address.number, buf),
    }
}

fn write_ipv4(number: u32, buf: &mut [u8; 39]) -> usize
    ensures text { take result buf.new ≡ text_in Family.V4 number }
    ensures within { result ≤ 39 }
{
    let [a, b, c, d] = Ipv4Addr::from_bits(number).octets();
    let at = put_decimal(a, buf, 0);
    let at = put(b'.', buf, at);
    let at = put_decimal(b, buf, at);
    let at = put(b'.', buf, at);
    let at = put_decimal(c, buf, at);
    let at = put(b'.', buf, at);
    put_decimal(d, buf, at)
}

fn write_ipv6(number: u128, buf: &mut [u8; 39]) -> usize
    ensures text { take result buf.new ≡ text_in Family.V6 number }
    ensures within { result ≤ 39 }
{
    let groups = Ipv6Addr::from_bits(number).segments();
    let groups = groups.as_slice();
    let (start, len) = longest_zero_run(groups);
    if len < 2 {
        return put_groups(groups, buf, 0);
    }
    let at = put_groups(&groups[..start], buf, 0);
    let at = put(b':', buf, at);
    let at = put(b':', buf, at);
    put_groups(&groups[start + len..], buf, at)
}

/// The start and the length of the longest run of zeros, and of two such runs of the first.
fn longest_zero_run(groups: &[u16]) -> (usize, usize)
    ensures value { result ≡ longest_zero_run groups.now }
    ensures within { result.0 + result.1 ≤ length groups.now }
{
    let mut start = groups.len();
    let mut len = 0;
    let mut run = 0;
    for i in (0..groups.len()).rev() {
        run = if groups[i] == 0 { run + 1 } else { 0 };
        if run >= len {
            start = i;
            len = run;
        }
    }
    (start, len)
}

// Each of these writes at `at`, and answers where what follows is to stand.

fn put(byte: u8, buf: &mut [u8; 39], at: usize) -> usize
    requires { at < 39 }
    ensures text { take result buf.new ≡ take at buf.old ++ byte ∷ [] }
    ensures after { result ≡ at + 1 }
{
    buf[at] = byte;
    at + 1
}

/// A decimal number.
fn put_decimal(octet: u8, buf: &mut [u8; 39], at: usize) -> usize
    requires { at + 3 ≤ 39 }
    ensures text { take result buf.new ≡ take at buf.old ++ decimal octet }
    ensures after { result ≤ at + 3 }
{
    match octet {
        0..=9 => put(b'0' + octet, buf, at),
        10..=99 => {
            let at = put(b'0' + octet / 10, buf, at);
            put(b'0' + octet % 10, buf, at)
        }
        _ => {
            let at = put(b'0' + octet / 100, buf, at);
            let at = put(b'0' + octet / 10 % 10, buf, at);
            put(b'0' + octet % 10, buf, at)
        }
    }
}

/// A group in lower-case hexadecimal without leading zeros.
fn put_hex(group: u16, buf: &mut [u8; 39], at: usize) -> usize
    requires { at + 4 ≤ 39 }
    ensures text { take result buf.new ≡ take at buf.old ++ hex group }
    ensures after { result ≤ at + 4 }
{
    match group {
        0..=0xf => put_digit(group, buf, at),
        0x10..=0xff => {
            let at = put_digit(group / 0x10, buf, at);
            put_digit(group % 0x10, buf, at)
        }
        0x100..=0xfff => {
            let at = put_digit(group / 0x100, buf, at);
            let at = put_digit(group / 0x10 % 0x10, buf, at);
            put_digit(group % 0x10, buf, at)
        }
        _ => {
            let at = put_digit(group / 0x1000, buf, at);
            let at = put_digit(group / 0x100 % 0x10, buf, at);
            let at = put_digit(group / 0x10 % 0x10, buf, at);
            put_digit(group % 0x10, buf, at)
        }
    }
}

fn put_digit(digit: u16, buf: &mut [u8; 39], at: usize) -> usize
    requires digit { digit < 16 }
    requires room { at < 39 }
    ensures text { take result buf.new ≡ take at buf.old ++ digit_char digit ∷ [] }
    ensures after { result ≡ at + 1 }
{
    if digit < 10 {
        put(b'0' + digit as u8, buf, at)
    } else {
        put(b'a' + (digit - 10) as u8, buf, at)
    }
}

/// Groups with colons between them.
fn put_groups(groups: &[u16], buf: &mut [u8; 39], at: usize) -> usize
    requires room { at + 5 * length groups.now ≤ 40 }
    requires at { at ≤ 39 }
    ensures text { take result buf.new ≡ take at buf.old ++ groups_text groups.now }
    ensures after { result ≤ at + 5 * length groups.now }
    ensures within { result ≤ 39 }
{
    let [first, rest @ ..] = groups else {
        return at;
    };
    let mut at = put_hex(*first, buf, at);
    for group in rest {
        at = put(b':', buf, at);
        at = put_hex(*group, buf, at);
    }
    at
}
