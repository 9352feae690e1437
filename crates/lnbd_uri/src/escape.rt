//! The escapes of an address, `%` and two hexadecimal digits, and the bytes that they stand for.

ghost use Rattle.std.specs.Prelude.{◌≡◌, ◌<◌, ◌↔◌, IsTrue, IfOk, length, slice_index};
ghost use Rattle.std.specs.Char.{is_ascii_hexdigit};
ghost use Rattle.percent_encoding.specs.Percent.{percent_decode};
ghost use Rattle.lnbd_uri.specs.Parts.{HasDigitsBehind, IsEscaped};

use lnbd_model::NoMemory;
use percent_encoding::percent_decode;
use std::alloc::Global;

fn is_hexdigit_at(part: &[u8], index: usize) -> bool
    ensures { result ≡ is_ascii_hexdigit (slice_index part.now index) }
{
    match part.get(index) {
        Some(byte) => byte.is_ascii_hexdigit(),
        None => false,
    }
}

/// Whether no `%` stands at this place, or one with two hexadecimal digits behind it.
fn is_escaped_at(part: &[u8], index: usize) -> bool
    requires { index < length part.now }
    ensures { IsTrue result ↔ (slice_index part.now index ≡ 37 → HasDigitsBehind part.now index) }
{
    part[index] != b'%' || is_hexdigit_at(part, index + 1) && is_hexdigit_at(part, index + 2)
}

/// Whether each `%` has two hexadecimal digits behind it.
pub(crate) fn is_escaped(part: &[u8]) -> bool
    ensures { IsTrue result ↔ IsEscaped part.now }
{
    for index in 0..part.len() {
        if !is_escaped_at(part, index) {
            return false;
        }
    }
    true
}

/// The bytes that a part of an address stands for.
pub(crate) fn decoded(alloc: Global, part: &[u8]) -> Result<Vec<u8>, NoMemory>
    ensures { IfOk result (λ bytes. bytes.items ≡ percent_decode part.now) }
{
    let mut bytes = Vec::new(alloc);
    percent_decode(part).append_to(&mut bytes)?;
    Ok(bytes)
}
