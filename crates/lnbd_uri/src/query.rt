//! The query of an address, of which only the path of a Unix socket counts.

ghost use Rattle.std.specs.Prelude.{◌≡◌, ◌==◌, find, option_copied};
ghost use Rattle.std.specs.List.{slice_split};
ghost use Rattle.lnbd_uri.specs.Parts.{is_socket_part, socket_value};

fn is_socket_part(part: &str) -> bool
    ensures { result ≡ is_socket_part part.now }
{
    part.starts_with("socket=")
}

/// The first part of the query that begins with `socket=`.
fn socket_part(query: &str) -> Option<&str>
    ensures { option_copied result ≡ find is_socket_part (slice_split (λ c. c == 38) query.now) }
{
    query.split('&').find(|part| is_socket_part(part))
}

/// What stands behind `socket=` in the first part of the query that begins so.
pub(crate) fn socket_value(query: &str) -> Option<&str>
    ensures { option_copied result ≡ socket_value query.now }
{
    match socket_part(query) {
        Some(part) => part.strip_prefix("socket="),
        None => None,
    }
}
