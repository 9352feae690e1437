//! Where a connection and its negotiation stand, and what a handle answers. How one follows another
//! is not said here.

use lnbd_model::{Bytes, Cause};

/// Where negotiation stands.
#[derive(Clone, Copy, Debug, PartialEq, Eq)]
pub enum Phase {
    /// The server's hello is awaited.
    Greeting,
    /// The option of this number was asked and is not answered.
    Asked(u32),
    /// EXPORT_NAME was asked and is not answered.
    AskedByName,
    /// The caller decides which option comes next.
    OptMode,
    /// Transmission has begun.
    Ready,
    /// The server refused the export with this code.
    Refused(u32),
}

/// Where a connection stands.
#[derive(Clone, Copy, Debug, PartialEq, Eq)]
pub enum Stage {
    /// Nothing has begun.
    Created,
    /// The two sides speak.
    Open,
    /// DISC was asked; the replies to commands in flight still count.
    Disconnecting,
    /// ABORT was asked; what comes is passed over.
    Aborting,
    /// It ended as was asked.
    Closed,
    /// It is gone.
    Dead(Cause),
}

/// The answer to the last option that the caller asked in opt mode.
#[derive(Clone, Copy, Debug, PartialEq, Eq)]
pub enum OptAnswer {
    /// It was acknowledged.
    Ok,
    /// The code is the reply's type less 2^31.
    Refused { option: u32, code: u32 },
}

/// What a command came to.
#[derive(Debug, Drop)]
pub enum Completed {
    /// It succeeded, with these bytes.
    Done(Bytes),
    /// It failed with this error, and its bytes come back.
    Failed { error: u32, buf: Bytes },
    /// It is in flight.
    NotYet,
    /// It was never issued, or is retired.
    NoSuchCookie,
}

/// Which completed command comes next.
#[derive(Clone, Copy, Debug, PartialEq, Eq)]
pub enum Peeked {
    /// Of the commands that are completed and not retired, this one completed first.
    Cookie(u64),
    /// Commands are left, and none is completed.
    NoneDone,
    /// No command is left.
    NoneLeft,
}
