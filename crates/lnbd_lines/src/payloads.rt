//! `BYTES`: what a write sends.

ghost use Rattle.std.specs.Prelude.{◌≡◌, ◌∷◌, [], MatchOption, IfOk, List, ℕ};
ghost use Rattle.std.specs.Char.{is_ascii_uppercase};
ghost use Rattle.std.specs.List.{list_any};
ghost use Rattle.lnbd_lines.specs.Grammar.{IsFill, IsHex, IsPayload};
ghost use Rattle.lnbd_lines.specs.declared.command.Payload.{Payload};

use crate::command::Payload;
use crate::number::size;
use crate::word::cut_at_colon;
use hex::{FromHex, FromHexError};
use lnbd_model::{Bytes, NoMemory};
use std::alloc::Global;

/// Whether an upper-case letter stands among the digits, which `hex` takes.
fn has_uppercase(digits: &str) -> bool
    ensures { result ≡ list_any is_ascii_uppercase digits.now }
{
    digits
        .as_bytes()
        .iter()
        .any(|byte| byte.is_ascii_uppercase())
}

/// The bytes that pairs of digits spell.
fn hex_bytes(alloc: Global, digits: &str) -> Result<Option<Bytes>, NoMemory>
    ensures { IfOk result (λ found. MatchOption found ((bytes : List ℕ) → ¬ IsHex digits.now bytes) (λ bytes. IsHex digits.now bytes)) }
{
    if has_uppercase(digits) {
        return Ok(None);
    }
    match hex::decode(alloc, digits) {
        Ok(bytes) => Ok(Some(Bytes::from_vec(bytes))),
        Err(FromHexError::OutOfMemory) => Err(NoMemory),
        Err(_) => Ok(None),
    }
}

/// The byte that a pair of digits spells.
fn hex_byte(pair: &str) -> Option<u8>
    ensures { MatchOption result ((byte : ℕ) → ¬ IsHex pair.now (byte ∷ [])) (λ byte. IsHex pair.now (byte ∷ [])) }
{
    if has_uppercase(pair) {
        return None;
    }
    match <[u8; 1] as FromHex>::from_hex(pair) {
        Ok(bytes) => Some(bytes[0]),
        Err(_) => None,
    }
}

/// `XX:LEN`.
fn fill(text: &str) -> Option<(u8, u32)>
    ensures { MatchOption result ((byte size : ℕ) → ¬ IsFill text.now byte size) (λ fill. IsFill text.now fill.0 fill.1) }
{
    let Some((pair, digits)) = cut_at_colon(text) else {
        return None;
    };
    let Some(byte) = hex_byte(pair) else {
        return None;
    };
    let Some(length) = size(digits) else {
        return None;
    };
    Some((byte, length))
}

/// `hex:` and digits.
fn hex_payload(alloc: Global, text: &str) -> Result<Option<Payload>, NoMemory>
    ensures { IfOk result (λ found. MatchOption found ((bytes : List ℕ) → ¬ IsPayload text.now (Payload.Hex bytes)) (λ payload. IsPayload text.now payload)) }
{
    let Some(digits) = text.strip_prefix("hex:") else {
        return Ok(None);
    };
    match hex_bytes(alloc, digits)? {
        Some(bytes) => Ok(Some(Payload::Hex(bytes))),
        None => Ok(None),
    }
}

/// `fill:XX:LEN`.
fn fill_payload(text: &str) -> Option<Payload>
    ensures { MatchOption result ((byte size : ℕ) → ¬ IsPayload text.now (Payload.Fill byte size)) (λ payload. IsPayload text.now payload) }
{
    let Some(rest) = text.strip_prefix("fill:") else {
        return None;
    };
    match fill(rest) {
        Some((byte, length)) => Some(Payload::Fill { byte, length }),
        None => None,
    }
}

/// What a write sends.
pub(crate) fn payload(alloc: Global, text: &str) -> Result<Option<Payload>, NoMemory>
    ensures { IfOk result (λ found. MatchOption found ((payload : Payload) → ¬ IsPayload text.now payload) (λ payload. IsPayload text.now payload)) }
{
    if let Some(payload) = fill_payload(text) {
        return Ok(Some(payload));
    }
    hex_payload(alloc, text)
}
