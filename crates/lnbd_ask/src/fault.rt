//! Why nothing was found.

use lnbd_model::{Broken, NoMemory};
use thiserror::Error;

/// Why a server's exports could not be told (nbdinfo(1)).
#[derive(Clone, Copy, Debug, PartialEq, Eq, Error)]
pub enum InfoFault {
    /// Memory ran out.
    #[error("no memory")]
    NoMemory,
    /// A link failed: the wires' count of faults stood at `before` at the start, and stands at `after`.
    #[error("link fault")]
    Link { before: u64, after: u64 },
    /// The server broke the protocol, or ended the connection before all was asked.
    #[error("peer broke off")]
    Broke(Broken),
    /// The server answered this option, or else a command, by this error.
    #[error("peer error")]
    Peer { option: Option<u32>, code: u32 },
    /// The wires were idle for too long: their count of waiting stands at `idles`.
    #[error("peer silent")]
    Silent { idles: u64 },
    /// The server did not agree to the meta context.
    #[error("no context")]
    NoContext,
}

impl From<NoMemory> for InfoFault {
    ghost use Rattle.std.specs.Prelude.{◌≡◌};
    ghost use Rattle.lnbd_ask.specs.declared.fault.InfoFault.TheVariants as fault;

    ghost from_gives = { λ _ told. told ≡ fault.NoMemory };

    fn from(_error: NoMemory) -> InfoFault {
        InfoFault::NoMemory
    }
}
