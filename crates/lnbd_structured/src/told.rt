//! What a chunk tells, read and without its head.

use lnbd_model::Extent;

/// What a chunk tells.
#[derive(Clone, Copy, Debug)]
pub enum Told<'a> {
    /// Bytes of a read, from a place of the export on.
    Data { offset: u64, bytes: &'a [u8] },
    /// So many zeros of a read, from a place of the export on.
    Hole { offset: u64, length: u64 },
    /// Extents of the meta context with this number, from the command's offset on.
    Status { context: u32, entries: &'a [Extent] },
    /// An error with its number on the wire, of a place of the export or of none.
    Error { number: u32, offset: Option<u64> },
    /// Nothing.
    Nothing,
}
