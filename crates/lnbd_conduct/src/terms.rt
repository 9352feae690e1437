//! The terms on which a copy is made, as they are kept. How they are settled is not known here.

use crate::sides::Sides;
use lnbd_board::How;

/// What is settled.
#[derive(Clone, Copy, Debug)]
pub struct Terms {
    /// The source's size in bytes.
    pub size: u64,
    /// All slices start and end at multiples of it.
    pub grain: u32,
    /// Data slices are cut at its multiples, and zero slices at those of `zero_cell`.
    pub cell: u32,
    pub zero_cell: u64,
    pub how: How,
    pub sides: Sides,
    /// The most slices that are begun and not over.
    pub limit: u64,
    /// Whether the destination is to be flushed in the end.
    pub flush: bool,
}
