//! How a plan cuts.

/// How a plan cuts.
#[derive(Clone, Copy, Debug)]
pub struct Cells {
    /// Slices that aren't zero are cut at its multiples.
    pub cell: u32,
    /// Zero slices are cut at its multiples.
    pub zero_cell: u64,
    /// Whether zero slices are copied.
    pub zeros: bool,
}
