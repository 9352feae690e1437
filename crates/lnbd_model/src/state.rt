//! The states of a handle and why it died. How one state follows another is not said here.

use crate::breach::Breach;

/// Why a connection is dead.
#[derive(Clone, Copy, Debug, PartialEq, Eq)]
pub enum Cause {
    /// The peer broke the protocol.
    Broke(Breach),
    /// GO was refused outside opt mode. The code is the reply's type less 2^31.
    Refused { option: u32, code: u32 },
    /// The peer ended the connection.
    Ended,
    /// Reading or writing failed.
    LinkFailed,
}

/// Where a handle stands.
#[derive(Clone, Copy, Debug, PartialEq, Eq)]
pub enum State {
    /// Made and not started.
    Created,
    /// The handshake is under way.
    Negotiating,
    /// The caller decides which option comes next.
    OptMode,
    /// Commands may be issued.
    Ready,
    /// DISC or ABORT was asked; replies still count.
    Closing,
    /// The connection ended as was asked.
    Closed,
    /// The connection is gone, and each command in flight failed.
    Dead(Cause),
}
