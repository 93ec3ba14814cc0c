//! Numbers in octets, the highest first.
ghost use Rattle.std.specs.Prelude.{◌≡◌, ◌++◌, OnOk};
ghost use Rattle.std.specs.Int.{w16, w32, to_be_bytes};

use byteorder::{BigEndian, WriteBytesExt};
use mlb_base::NoMemory;

/// Appends the number in two octets.
pub(crate) fn put_u16(number: u16, out: &mut Vec<u8>) -> Result<(), NoMemory>
    ensures { OnOk result (out.new.items ≡ out.old.items ++ to_be_bytes w16 number) }
{
    out.write_u16::<BigEndian>(number)
        .map_err(|_refused| NoMemory)
}

/// Appends the number in four octets.
pub(crate) fn put_u32(number: u32, out: &mut Vec<u8>) -> Result<(), NoMemory>
    ensures { OnOk result (out.new.items ≡ out.old.items ++ to_be_bytes w32 number) }
{
    out.write_u32::<BigEndian>(number)
        .map_err(|_refused| NoMemory)
}
