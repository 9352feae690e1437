//! Why a command was not issued. Which rule holds when is not said here.

use crate::state::{Cause, State};
use thiserror::Error;

/// What an export does not offer.
#[derive(Clone, Copy, Debug, PartialEq, Eq)]
pub enum Lack {
    /// It may only be read.
    ReadOnly,
    Flush,
    Trim,
    Zero,
    Cache,
    /// No meta context is agreed.
    Context,
}

/// Why a command was refused. It was then not sent, and its callbacks were freed.
#[derive(Clone, Copy, Debug, PartialEq, Eq, Error)]
pub enum Why {
    /// Not ready yet, in this state.
    #[error("not ready yet")]
    NotReady(State),
    #[error("the connection is dead")]
    Dead(Cause),
    #[error("the connection is closing")]
    Closing,
    /// So many commands, the most, are not retired.
    #[error("{0} commands are not retired")]
    TooMany(u32),
    #[error("not offered by the export")]
    Unsupported(Lack),
    /// The command flags that are not allowed here.
    #[error("command flags that are not allowed: {0}")]
    BadFlags(u32),
    /// The length is 0.
    #[error("no bytes")]
    ZeroSize,
    /// The length is above this limit in bytes.
    #[error("more than {0} bytes")]
    TooBig(u64),
    /// The range ends past this size in bytes.
    #[error("past the end of {0} bytes")]
    Bounds(u64),
    /// The offset or the length is no multiple of this minimum block in bytes.
    #[error("not in whole blocks of {0} bytes")]
    Align(u32),
}
