//! The authority of an address: what may stand as its host and as its port.

ghost use Rattle.std.specs.Prelude.{◌≡◌, ◌↔◌, IsTrue, MatchOption, ℕ, option_copied};
ghost use Rattle.lnbd_uri.specs.Parts.{IsHost, IsPort, IsPortOf, is_host_character};

/// The port that IANA assigned to NBD, where an address names none (NBD URI specification).
const DEFAULT_PORT: u16 = 10809;

fn is_host_character(byte: u8) -> bool
    ensures { result ≡ is_host_character byte }
{
    byte.is_ascii_alphanumeric() || byte == b'.' || byte == b'-' || byte == b'_'
}

/// Whether the bytes are one or more letters, digits, `.`, `-` or `_`.
pub(crate) fn is_host(host: &str) -> bool
    ensures { IsTrue result ↔ IsHost host.now }
{
    !host.is_empty() && host.as_bytes().iter().all(|byte| is_host_character(*byte))
}

/// The number that the digits spell, where they spell one from 1 to 65535.
fn port_number(digits: &str) -> Option<u16>
    ensures { MatchOption result ((port : ℕ) → ¬ IsPort digits.now port) (λ port. IsPort digits.now port) }
{
    // A sign is no digit, but `parse` takes one.
    if digits.starts_with('+') {
        return None;
    }
    match digits.parse::<u16>() {
        Ok(port) if port > 0 => Some(port),
        _ => None,
    }
}

/// The port of an address, whose digits are these where it names one.
pub(crate) fn port_of(digits: Option<&str>) -> Option<u16>
    ensures { MatchOption result ((port : ℕ) → ¬ IsPortOf (option_copied digits.entry) port) (λ port. IsPortOf (option_copied digits.entry) port) }
{
    match digits {
        None => Some(DEFAULT_PORT),
        Some(digits) => port_number(digits),
    }
}
