//! What an address says that it is, by its scheme.

ghost use Rattle.std.specs.Prelude.{◌↔◌, IsTrue};
ghost use Rattle.lnbd_uri.specs.Parts.{Begins};

use crate::parts::Parts;

/// What a text is read as, before anything in it is judged.
#[derive(Clone, Copy, Debug)]
pub(crate) enum Address<'a> {
    /// None of the schemes.
    Unknown,
    /// A scheme over TLS.
    Secured,
    Tcp(Parts<'a>),
    Unix(Parts<'a>),
}

/// Whether the text begins so.
fn begins(text: &str, front: &str) -> bool
    ensures { IsTrue result ↔ Begins front.now text.now }
{
    text.starts_with(front)
}

impl Address<'_> {
    ghost use Rattle.lnbd_uri.specs.Address.{ReadsAs};
    ghost use Rattle.lnbd_uri.specs.Written.{reading_of};

    /// Reads the scheme, and cuts what stands behind it.
    pub(crate) fn read(text: &str) -> Address<'_>
        ensures { ReadsAs text.now (reading_of result) }
    {
        if let Some(rest) = text.strip_prefix("nbd://") {
            return Address::Tcp(Parts::of(rest));
        }
        if let Some(rest) = text.strip_prefix("nbd+unix://") {
            return Address::Unix(Parts::of(rest));
        }
        if begins(text, "nbds://") || begins(text, "nbds+unix://") {
            return Address::Secured;
        }
        Address::Unknown
    }
}
