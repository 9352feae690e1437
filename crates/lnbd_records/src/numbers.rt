//! Numbers of 16, 32 and 64 bits in bytes, the highest byte first: read at a place, and put behind others.

ghost use Rattle.std.specs.Prelude.{◌≡◌, ◌+◌, ◌≤◌, ◌++◌, ◌∷◌, [], OnOk, OnErr, length};
ghost use Rattle.lnbd_records.specs.Numbers.{number, row, number_at};

use byteorder::{BigEndian, ByteOrder};
use lnbd_model::NoMemory;

/// The number that stands in two bytes from a place on.
#[tactic(auto, unfolding(crate::specs::Numbers::number_at))]
pub fn u16_at(bytes: &[u8], place: usize) -> u16
    requires { place + 2 ≤ length bytes.now }
    ensures { result ≡ number_at place 2 bytes.now }
{
    BigEndian::read_u16(&bytes[place..])
}

/// The number that stands in four bytes from a place on.
#[tactic(auto, unfolding(crate::specs::Numbers::number_at))]
pub fn u32_at(bytes: &[u8], place: usize) -> u32
    requires { place + 4 ≤ length bytes.now }
    ensures { result ≡ number_at place 4 bytes.now }
{
    BigEndian::read_u32(&bytes[place..])
}

/// The number that stands in eight bytes from a place on.
#[tactic(auto, unfolding(crate::specs::Numbers::number_at))]
pub fn u64_at(bytes: &[u8], place: usize) -> u64
    requires { place + 8 ≤ length bytes.now }
    ensures { result ≡ number_at place 8 bytes.now }
{
    BigEndian::read_u64(&bytes[place..])
}

/// Puts a number of 16 bits behind what `out` holds. On `NoMemory` it holds what it held.
pub fn push_u16(out: &mut Vec<u8>, value: u16) -> Result<(), NoMemory>
    ensures ok { OnOk result (out.new.items ≡ out.old.items ++ row (number 2 value ∷ [])) }
    ensures err { OnErr result (out.new.items ≡ out.old.items) }
{
    let two = value.to_be_bytes();
    out.extend_from_slice(&two)?;
    Ok(())
}

/// Puts a number of 32 bits behind what `out` holds. On `NoMemory` it holds what it held.
pub fn push_u32(out: &mut Vec<u8>, value: u32) -> Result<(), NoMemory>
    ensures ok { OnOk result (out.new.items ≡ out.old.items ++ row (number 4 value ∷ [])) }
    ensures err { OnErr result (out.new.items ≡ out.old.items) }
{
    let four = value.to_be_bytes();
    out.extend_from_slice(&four)?;
    Ok(())
}

/// Puts a number of 64 bits behind what `out` holds. On `NoMemory` it holds what it held.
pub fn push_u64(out: &mut Vec<u8>, value: u64) -> Result<(), NoMemory>
    ensures ok { OnOk result (out.new.items ≡ out.old.items ++ row (number 8 value ∷ [])) }
    ensures err { OnErr result (out.new.items ≡ out.old.items) }
{
    let eight = value.to_be_bytes();
    out.extend_from_slice(&eight)?;
    Ok(())
}
