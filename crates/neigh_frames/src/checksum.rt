//! Checksums.
ghost use Rattle.std.specs.Prelude.{◌≡◌, ◌<◌, ◌^◌, length};
ghost use Rattle.neigh_frames.specs.Checksum.{plus as sum_of, sum_from, ones_sum};
ghost use Rattle.neigh_frames.specs.Checksum.{with_pseudo_header};

/// The ones' complement sum of two 16-bit numbers: the carry comes back in.
fn plus(sum: u16, word: u16) -> u16
    ensures { result ≡ sum_of sum word }
{
    let total = sum as u32 + word as u32;
    (total % 0x1_0000 + total / 0x1_0000) as u16
}

/// The sum, and the bytes by pairs added to it.
fn add(sum: u16, bytes: &[u8]) -> u16
    ensures { result ≡ sum_from sum bytes.now }
{
    let mut sum = sum;
    let mut rest = bytes;
    while let [high, low, tail @ ..] = rest {
        sum = plus(sum, *high as u16 * 256 + *low as u16);
        rest = tail;
    }
    match rest {
        [last] => plus(sum, *last as u16 * 256),
        _ => sum,
    }
}

/// The ones' complement sum of an ICMPv6 message and its pseudo header.
pub(crate) fn message_sum(addresses: &[u8], message: &[u8]) -> u16
    requires addresses { length addresses.now ≡ 32 }
    requires short { length message.now < 2 ^ 32 }
    ensures { result ≡ ones_sum (with_pseudo_header addresses.now message.now) }
{
    let sum = add(0, addresses);
    let sum = add(sum, &(message.len() as u32).to_be_bytes());
    let sum = add(sum, &[0, 0, 0, 58]);
    add(sum, message)
}
