//! What the matches tell.

ghost use Rattle.std.specs.Prelude.{◌≡◌, ◌≤◌, ℕ, MatchOption, is_some, option_map};
ghost use Rattle.clap.specs.Matches.{found_of};
ghost use Rattle.clap.specs.Walk.{first_of, rows_of};
ghost use Rattle.lnbd_args.specs.Clap.{is_true};
ghost use Rattle.lnbd_args.specs.Tools.{IsNumberOr, IsWithin};

use crate::number::number;
use clap::ArgMatches;

/// The value of an option, or a place.
pub(crate) fn value<'a>(found: &ArgMatches<'a>, name: &str) -> Option<&'a str>
    ensures { option_map (λ s. s.now) result ≡ first_of name.now (rows_of (found_of found.now)) }
{
    found.get_str(name)
}

/// Whether an option with a value is given.
pub(crate) fn has_value(found: &ArgMatches, name: &str) -> bool
    ensures { result ≡ is_some (first_of name.now (rows_of (found_of found.now))) }
{
    value(found, name).is_some()
}

/// Whether an option with no value is given.
pub(crate) fn is_given(found: &ArgMatches, name: &str) -> bool
    ensures { result ≡ is_true (first_of name.now (rows_of (found_of found.now))) }
{
    match value(found, name) {
        None => false,
        Some(text) => text == "true",
    }
}

/// The number of an option, or the default where it isn't given.
pub(crate) fn number_or(found: &ArgMatches, name: &str, default: u64) -> Option<u64>
    ensures { MatchOption result ((n : ℕ) → ¬ IsNumberOr default (first_of name.now (rows_of (found_of found.now))) n)
        (λ n. IsNumberOr default (first_of name.now (rows_of (found_of found.now))) n) }
{
    match value(found, name) {
        None => Some(default),
        Some(digits) => number(digits),
    }
}

/// The same, within limits.
pub(crate) fn within(
    found: &ArgMatches,
    name: &str,
    default: u32,
    low: u32,
    high: u32,
) -> Option<u32>
    requires { (low ≤ default) × (default ≤ high) }
    ensures { MatchOption result ((n : ℕ) → ¬ IsWithin default low high (first_of name.now (rows_of (found_of found.now))) n)
        (λ n. IsWithin default low high (first_of name.now (rows_of (found_of found.now))) n) }
{
    let n = number_or(found, name, default as u64)?;
    if n < (low as u64) || (high as u64) < n {
        return None;
    }
    Some(n as u32)
}
