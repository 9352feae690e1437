//! Numbers put at a place in bytes that are there, the highest byte first.

ghost use Rattle.std.specs.Prelude.{◌≡◌, ◌+◌, ◌≤◌, ◌++◌, ◌∷◌, [], List, length, take};
ghost use Rattle.lnbd_records.specs.Numbers.{Field, number, row};

use byteorder::{BigEndian, ByteOrder};

/// Puts a number behind the fields that stand in the first `at` bytes.
pub fn put_u16(out: &mut [u8], at: usize, value: u16)
    requires { at + 2 ≤ length out.old }
    ensures { (fields : List Field) → take at out.old ≡ row fields
        → take (at + 2) out.new ≡ row (fields ++ number 2 value ∷ []) }
{
    BigEndian::write_u16(&mut out[at..], value);
}

/// Puts a number behind the fields that stand in the first `at` bytes.
pub fn put_u32(out: &mut [u8], at: usize, value: u32)
    requires { at + 4 ≤ length out.old }
    ensures { (fields : List Field) → take at out.old ≡ row fields
        → take (at + 4) out.new ≡ row (fields ++ number 4 value ∷ []) }
{
    BigEndian::write_u32(&mut out[at..], value);
}

/// Puts a number behind the fields that stand in the first `at` bytes.
pub fn put_u64(out: &mut [u8], at: usize, value: u64)
    requires { at + 8 ≤ length out.old }
    ensures { (fields : List Field) → take at out.old ≡ row fields
        → take (at + 8) out.new ≡ row (fields ++ number 8 value ∷ []) }
{
    BigEndian::write_u64(&mut out[at..], value);
}
