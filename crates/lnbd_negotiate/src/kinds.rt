//! What a talk is made with, and what its calls answer.

ghost use Rattle.std.specs.Prelude.{◌≡◌};
ghost use Rattle.lnbd_negotiate.specs.declared.kinds.TalkFault.TheVariants.{NoMemory};

use lnbd_model::{Cause, Text, Texts};
use thiserror::Error;

/// The settings of a talk.
#[derive(Debug, Drop)]
pub struct Config {
    /// The export's name.
    pub name: Text,
    /// The meta contexts that are asked for, sixteen at most.
    pub contexts: Texts,
    /// Whether structured replies are asked for.
    pub structured: bool,
    /// Whether extended headers are asked for.
    pub extended: bool,
    /// Whether the caller decides which option comes next.
    pub opt_mode: bool,
}

/// What comes next.
#[derive(Clone, Copy, Debug, PartialEq, Eq)]
pub enum Next {
    /// An option reply.
    Wait,
    /// The reply to EXPORT_NAME, which is no option reply.
    WaitExport,
    /// The caller decides.
    Caller,
    /// Commands may be issued.
    Ready,
}

/// Why a call did not do what it should.
#[derive(Clone, Copy, Debug, PartialEq, Eq, Error)]
pub enum TalkFault {
    /// Memory ran out; nothing has changed.
    #[error("no memory")]
    NoMemory,
    /// The connection is dead for this cause.
    #[error("negotiation ended the connection")]
    Cause(Cause),
}

impl From<lnbd_model::NoMemory> for TalkFault {
    ghost from_gives = { λ e r. r ≡ NoMemory };

    fn from(_error: lnbd_model::NoMemory) -> TalkFault {
        TalkFault::NoMemory
    }
}
