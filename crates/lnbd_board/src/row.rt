//! The rows of a board: where each slice stands that is begun and not over.

use crate::pieces::Pieces;
use lnbd_model::Bytes;
use lnbd_plan::Slice;

/// Where a slice stands.
#[derive(Debug, Drop)]
pub enum Stage {
    /// The slice is asked to be read.
    Reading,
    /// The last piece is asked to be written or zeroed. The buffer is away with it, and comes back.
    Last,
    /// The slice was read, and is not cut into pieces yet.
    Came { bytes: Bytes },
    /// One piece is asked to be written or zeroed, and these are left.
    Writing { bytes: Bytes, left: Pieces },
    /// Nothing is asked, and these pieces are left.
    Holding { bytes: Bytes, left: Pieces },
    /// All is written. The buffer is free.
    Finished { bytes: Bytes },
}

/// A slice that is begun and not over.
#[derive(Debug, Drop)]
pub struct Row {
    pub slice: Slice,
    /// The connection of the source that the slice is bound to.
    pub source: usize,
    /// The connection of the destination that the slice is bound to.
    pub destination: usize,
    pub stage: Stage,
}
