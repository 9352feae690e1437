//! Bytes of a caller's own, which a command takes and its result gives back.

use lnbd_model::Bytes;

/// Bytes that a command reads into or writes from.
#[derive(Drop)]
pub struct Buffer {
    pub bytes: Bytes,
}
