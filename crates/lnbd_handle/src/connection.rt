//! All of a handle but the bytes that are no whole record yet. What its parts do together is not said
//! here.

use lnbd_commands::Commands;
use lnbd_history::Stage;
use lnbd_negotiate::Talk;
use lnbd_outgoing::Queue;
use std::alloc::Global;

/// Where a connection stands, what was agreed, what waits to go out, and the commands.
pub(crate) struct Connection<K> {
    pub(crate) alloc: Global,
    pub(crate) stage: Stage,
    /// The bits of strict mode.
    pub(crate) strict: u32,
    /// The server's handshake flags.
    pub(crate) flags: u16,
    pub(crate) talk: Talk,
    /// How many bytes were passed over after ABORT was asked.
    pub(crate) passed: usize,
    pub(crate) queue: Queue,
    /// How many commands are wholly written.
    pub(crate) written: u64,
    pub(crate) commands: Commands<K>,
}
