//! The parts of an address, cut at their marks as RFC 3986 cuts a URI. Nothing is judged here.

ghost use Rattle.std.specs.Prelude.{◌≡◌, ◌≢◌, ◌<◌, ◌↔◌, ◌++◌, [], All, IsTrue, length, option_copied};
ghost use Rattle.lnbd_uri.specs.Parts.{led_by, written};

use crate::query::socket_value;

/// What stands behind the scheme of an address, each part as it is written.
#[derive(Clone, Copy, Debug)]
pub(crate) struct Parts<'a> {
    pub(crate) host: &'a str,
    pub(crate) port: Option<&'a str>,
    pub(crate) name: Option<&'a str>,
    pub(crate) query: Option<&'a str>,
    pub(crate) fragment: Option<&'a str>,
}

/// What stands before the first mark, and what stands behind it where there is one.
fn cut(text: &str, mark: char) -> (&str, Option<&str>)
    requires { mark < 128 }
    ensures whole { text.now ≡ result.0.now ++ led_by mark (option_copied result.1) }
    ensures first { All (λ c. c ≢ mark) result.0.now }
{
    match text.split_once(mark) {
        Some((before, after)) => (before, Some(after)),
        None => (text, None),
    }
}

impl Parts<'_> {
    ghost use Rattle.lnbd_uri.specs.Parts.{IsSpelled, authority, socket};
    ghost use Rattle.lnbd_uri.specs.Written.{parts_of};

    /// Cuts the text behind a scheme into its parts.
    pub(crate) fn of(text: &str) -> Parts<'_>
        ensures { IsSpelled [] text.now (parts_of result) }
    {
        let (text, fragment) = cut(text, '#');
        let (text, query) = cut(text, '?');
        let (authority, name) = cut(text, '/');
        let (host, port) = cut(authority, ':');
        Parts {
            host,
            port,
            name,
            query,
            fragment,
        }
    }

    /// Whether a host or a port is written.
    pub(crate) fn has_authority(&self) -> bool
        ensures { IsTrue result ↔ (0 < length (authority (parts_of self.now))) }
    {
        !self.host.is_empty() || self.port.is_some()
    }

    /// The name as it is written, empty where there is none.
    pub(crate) fn written_name(&self) -> &str
        ensures { result.now ≡ written (parts_of self.now).name }
    {
        match self.name {
            Some(name) => name,
            None => "",
        }
    }

    /// The value of the first `socket=` part of the query, empty where there is none.
    pub(crate) fn written_socket(&self) -> &str
        ensures { result.now ≡ socket (parts_of self.now) }
    {
        let Some(query) = self.query else {
            return "";
        };
        match socket_value(query) {
            Some(value) => value,
            None => "",
        }
    }
}
