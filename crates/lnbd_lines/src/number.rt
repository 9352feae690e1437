//! Numbers of a script, in decimal digits.

ghost use Rattle.std.specs.Prelude.{MatchOption, ℕ};
ghost use Rattle.lnbd_lines.specs.Grammar.{IsFlags, IsHandle, IsNumber, IsSize};

/// The most bytes that one read asks for, or that one fill has.
pub(crate) const MOST_BYTES: u64 = 67_108_864;

/// The number that the digits spell, where they spell one below 2^64.
pub(crate) fn number(digits: &str) -> Option<u64>
    ensures { MatchOption result ((value : ℕ) → ¬ IsNumber digits.now value) (λ value. IsNumber digits.now value) }
{
    // A sign is no digit, but `parse` takes one.
    if digits.starts_with('+') {
        return None;
    }
    digits.parse::<u64>().ok()
}

/// The number of bytes that the digits spell, where it isn't too large.
pub(crate) fn size(digits: &str) -> Option<u32>
    ensures { MatchOption result ((value : ℕ) → ¬ IsSize digits.now value) (λ value. IsSize digits.now value) }
{
    match number(digits) {
        Some(size) if size <= MOST_BYTES => Some(size as u32),
        _ => None,
    }
}

/// The command flags that the digits spell: a number below 2^32.
pub(crate) fn flags(digits: &str) -> Option<u32>
    ensures { MatchOption result ((value : ℕ) → ¬ IsFlags digits.now value) (λ value. IsFlags digits.now value) }
{
    match number(digits) {
        Some(flags) if flags <= 4_294_967_295 => Some(flags as u32),
        _ => None,
    }
}

/// How many handles a script has.
const MOST_HANDLES: u64 = 16;

/// The number of a handle that the digits spell: one below 16.
pub(crate) fn handle_number(digits: &str) -> Option<usize>
    ensures { MatchOption result ((value : ℕ) → ¬ IsHandle digits.now value) (λ value. IsHandle digits.now value) }
{
    match number(digits) {
        Some(number) if number < MOST_HANDLES => Some(number as usize),
        _ => None,
    }
}
