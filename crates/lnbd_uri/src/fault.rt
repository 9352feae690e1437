//! Why a text is no address. The order of the faults and their names stand in `specs/Fault.antt`.

ghost use Rattle.std.specs.Prelude.{◌≡◌};
ghost use Rattle.lnbd_uri.specs.declared.fault.UriFault.TheVariants.{NoMemory as OutOfMemory};
ghost use Rattle.lnbd_uri.specs.Fault.{name_of};

use lnbd_model::NoMemory;
use thiserror::Error;

/// Why a text is no address. Where several faults hold, the first of this order is told.
#[derive(Clone, Copy, Debug, PartialEq, Eq, Error)]
pub enum UriFault {
    /// Memory ran out. It may come in place of every other answer.
    #[error("NoMemory")]
    NoMemory,
    /// The scheme is none of `nbd`, `nbd+unix`, `nbds` and `nbds+unix`.
    #[error("Scheme")]
    Scheme,
    /// The scheme asks for TLS.
    #[error("Tls")]
    Tls,
    /// The host is empty or has another character, or a Unix address has an authority.
    #[error("Host")]
    Host,
    /// The port is no number from 1 to 65535.
    #[error("Port")]
    Port,
    /// A `%` without two hexadecimal digits, or a `#`.
    #[error("Escape")]
    Escape,
    /// A Unix address whose first `socket=` part is empty or isn't there.
    #[error("NoSocket")]
    NoSocket,
    /// A decoded part is no UTF-8.
    #[error("NotUtf8")]
    NotUtf8,
    /// A part has more than 4,096 bytes.
    #[error("TooLong")]
    TooLong,
}

impl UriFault {
    /// The fault's name, as programs print it.
    pub fn name(self) -> &'static str
        ensures { result.now ≡ name_of self }
    {
        match self {
            UriFault::NoMemory => "NoMemory",
            UriFault::Scheme => "Scheme",
            UriFault::Tls => "Tls",
            UriFault::Host => "Host",
            UriFault::Port => "Port",
            UriFault::Escape => "Escape",
            UriFault::NoSocket => "NoSocket",
            UriFault::NotUtf8 => "NotUtf8",
            UriFault::TooLong => "TooLong",
        }
    }
}

impl From<NoMemory> for UriFault {
    ghost from_gives = { λ _ fault. fault ≡ OutOfMemory };

    fn from(_error: NoMemory) -> UriFault {
        UriFault::NoMemory
    }
}
